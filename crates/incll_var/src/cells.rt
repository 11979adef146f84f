//! Banks of cells. All stores to a bank go through plans while it runs; a closing and a restore go by single events. A
//! closing goes by a list of the lines that were stored to. Room for a line's first store is made with a place in the list.

ghost use Rattle.std.specs.Prelude.{◌≡◌, ◌≢◌, ℕ, slice_set, [], ◌+◌, ◌<◌, ◌≤◌, true, IsTrue, ◌↔◌, length, not, count_by, if◌then◌else◌, OnOk, OnErr, IfOk};
ghost use Rattle.line_memory.specs.Line.{line_at, bank_load, bank_fenced, bank_written_back, bank_with_spare, with_spare, is_pending, unasked, AreLines};
ghost use Rattle.room_model.specs.Writes.{stored_in, touches, write, write_stores, needs_none, backup_stores, AreStoresWithin};
ghost use Rattle.incll_var.specs.Plans.{grown, filled, plan_behind, IsPlanned, HasPlacesFor};
ghost use Rattle.incll_var.specs.Stored.{KeepsList, has_places};
ghost use Rattle.incll_var.specs.Restore.{events_at, next_step, HaveRoomToRestore};
ghost use Rattle.incll_var.specs.Cells.{IsCellBank, IsTorn, IsRunning, IsClosing, IsSaved, MayEnter, MayClose, MayRestore, epoch_of, cells_in, with_state, closing_state, AreSettled, AreRestored, played, WritesOneBack, next_in, KeepsPlaces, HasSameCells, after_next};
ghost use Rattle.room_model.specs.Banks.{memory_words, loaded_triple};
ghost use Rattle.room_model.specs.Chains.{HasSameRecords, HasSameRoom};

use crate::plan::Plan;
use crate::restore::{RestoreStep, Todo, do_event, reserve_tagged, tagged_lines};
use crate::state::CellState;
use flush_list::FlushList;
use line_memory::Bank;
use room_model::{PlannedStore, TAG};
use std::alloc::{AllocError, Global};
use std::marker::Model;

/// A bank whose lines are cells.
#[derive(Drop)]
pub struct CellBank {
    bank: Bank,
    state: CellState,
    todo: Todo,
    stored: FlushList,
}

impl Model for CellBank {
    ghost use Rattle.incll_var.specs.Cells.{CellBankState, IsCellBank};
    ghost use Rattle.incll_var.specs.Stored.{KeepsList};

    ghost Value = { CellBankState };

    ghost view = { λ a. record { bank = a.bank; state = a.state; todo = a.todo; stored = a.stored.lines } };

    ghost invariant = { λ a. IsCellBank (record { bank = a.bank; state = a.state; todo = a.todo; stored = a.stored.lines }) × KeepsList a.bank.lines a.stored };
}

impl CellBank {
    /// Cells that are saved at this epoch: nothing is pending on the bank, and no tag is above the epoch. Want of memory is
    /// its one refusal; the bank is then given up. Where the bank has one line it takes no memory.
    pub fn clean(alloc: Global, bank: Bank, epoch: u32) -> Result<CellBank, AllocError>
        requires { AreSettled epoch bank.lines }
        ensures is { IfOk result (λ cells. cells ≡ cells_in (CellState.Saved epoch) bank) }
        ensures cells { IfOk result (λ cells. IsCellBank cells) }
    {
        let stored = list_for(alloc, &bank)?;
        Ok(CellBank {
            bank,
            state: CellState::Saved(epoch),
            todo: Todo::nothing(alloc),
            stored,
        })
    }

    /// Cells that a power cut in this epoch left: nothing is pending on the bank, and no tag is above the epoch. It makes
    /// room for all that their restore needs. Want of memory is its one refusal; the bank is then given up.
    pub fn torn(alloc: Global, bank: Bank, epoch: u32) -> Result<CellBank, AllocError>
        requires { AreSettled epoch bank.lines }
        ensures state { IfOk result (λ cells. cells.state ≡ CellState.Torn epoch) }
        ensures events { IfOk result (λ cells. cells.todo ≡ events_at epoch bank.lines) }
        ensures in_memory { IfOk result (λ cells. memory_words epoch cells.bank ≡ memory_words epoch bank) }
        ensures same { IfOk result (λ cells. HasSameCells bank cells.bank) }
        ensures cells { IfOk result (λ cells. IsCellBank cells) }
    {
        let mut bank = bank;
        reserve_tagged(&mut bank, epoch)?;
        let tagged = tagged_lines(alloc, &bank, epoch)?;
        let todo = Todo::of(alloc, tagged.as_slice())?;
        let stored = list_for(alloc, &bank)?;
        Ok(CellBank {
            bank,
            state: CellState::Torn(epoch),
            todo,
            stored,
        })
    }

    /// Where the cells stand.
    pub fn state(&self) -> CellState
        ensures state { result ≡ self.now.state }
        ensures cells { IsCellBank self.now }
    {
        self.state
    }

    /// How many cells there are.
    pub fn lines(&self) -> u32
        ensures count { result ≡ length self.now.bank.lines }
        ensures cells { IsCellBank self.now }
    {
        let _state = self.state;
        self.bank.lines()
    }

    /// The bank under the cells.
    pub fn bank(&self) -> &Bank
        ensures bank { result.now ≡ self.now.bank }
        ensures cells { IsCellBank self.now }
    {
        let _state = self.state;
        &self.bank
    }

    /// The bank under the cells, in any state.
    pub fn into_bank(self) -> Bank
        ensures bank { result ≡ self.bank }
        ensures cells { IsCellBank self }
    {
        let CellBank {
            bank,
            state: _,
            todo: _,
            stored: _,
        } = self;
        bank
    }

    /// The load of a word, from 0 to 7, of a line.
    pub fn load(&self, line: u32, word: u32) -> u64
        requires line { line < length self.now.bank.lines }
        requires word { word < 8 }
        ensures { result ≡ bank_load self.now.bank line word }
    {
        self.bank.load(line, word)
    }

    /// What a word, from 0 to 7, of a line will load when all stores that are left in the plan are made, in order: the value of
    /// the last of them to this word, or else the word's load. It goes once through the plan.
    pub fn load_behind(&self, line: u32, word: u32, plan: &Plan) -> u64
        requires line { line < length self.now.bank.lines }
        requires word { word < 8 }
        ensures { result ≡ stored_in (bank_load self.now.bank) plan.now.stores line word }
    {
        let mut behind = self.load(line, word);
        for place in 0..plan.left() {
            let store = plan.store_at(place);
            if store.line == line && store.word == word {
                behind = store.value;
            }
        }
        behind
    }

    /// The record of a line by loads.
    pub fn triple(&self, line: u32) -> [u64; 3]
        requires { line < length self.now.bank.lines }
        ensures { result ≡ loaded_triple self.now.bank line }
    {
        [self.load(line, 0), self.load(line, 1), self.load(line, 2)]
    }

    /// The tag of a line by loads: the epoch in which it was last written to, or 0 in a line that never was.
    pub fn tag(&self, line: u32) -> u64
        requires { line < length self.now.bank.lines }
        ensures { result ≡ bank_load self.now.bank line 6 }
    {
        self.bank.load(line, TAG)
    }

    /// Makes room for `n` more stores to the line at least, in any state. It refuses for want of memory, and where the stores
    /// of the line would be more than 2^32 - 1. Refused, it leaves the cells as they were.
    pub fn reserve(&mut self, line: u32, n: u32) -> Result<(), AllocError>
        requires { line < length self.old.bank.lines }
        ensures enough { OnOk result (n ≤ (line_at self.new.bank.lines line).spare) }
        ensures is { self.new ≡ record self.old { bank = bank_with_spare self.old.bank line (line_at self.new.bank.lines line).spare } }
        ensures same { HasSameCells self.old.bank self.new.bank }
        ensures refused { OnErr result (self.new ≡ self.old) }
        ensures cells { IsCellBank self.new }
    {
        let _state = self.state;
        place_for(&mut self.stored, &self.bank, line)?;
        self.bank.reserve(line, n)
    }

    /// Makes room for all stores that are left in the plan, in any state. It refuses for want of memory, and where the
    /// stores of a line would be more than 2^32 - 1. Refused, it may have made some room, and has changed nothing else.
    pub fn ready(&mut self, plan: &Plan) -> Result<(), AllocError>
        requires { AreStoresWithin (length self.old.bank.lines) plan.now.stores }
        ensures room { OnOk result (HasPlacesFor self.new.bank.lines plan.now.stores) }
        ensures is { self.new ≡ record self.old { bank = self.new.bank } }
        ensures same { HasSameCells self.old.bank self.new.bank }
        ensures planned { IsPlanned (epoch_of self.old.state) self.old.bank.lines plan.now.stores → IsPlanned (epoch_of self.old.state) self.new.bank.lines plan.now.stores }
        ensures cells { IsCellBank self.new }
    {
        let _state = self.state();
        let n = plan.left();
        for place in 0..n {
            self.reserve(plan.line_of(place), n)?;
        }
        Ok(())
    }

    /// Lets the cells be written to in this epoch: a later one than was saved, or the one that runs. When a later one begins,
    /// what memory holds of each cell at that epoch is its triple by loads.
    pub fn enter(&mut self, epoch: u32)
        requires { MayEnter self.old.state epoch }
        ensures is { self.new ≡ with_state self.old (CellState.Running epoch) }
        ensures begins { IsSaved self.old.state → HasSameRecords (memory_words epoch self.new.bank) (bank_load self.new.bank) }
        ensures cells { IsCellBank self.new }
    {
        self.state = CellState::Running(epoch);
    }

    /// Plans a write of a record word, from 0 to 2, behind what is planned already: the backup of the record and the tag
    /// come first, unless the line has the epoch's tag or the plan has a store to it. The plan's room stays. It refuses for
    /// want of memory, and where the plan would have more than 2^32 - 1 stores. Refused, it leaves the plan as it was.
    pub fn plan_write(
        &self,
        line: u32,
        word: u32,
        value: u64,
        plan: &mut Plan,
    ) -> Result<(), AllocError>
        requires running { IsRunning self.now.state }
        requires line { line < length self.now.bank.lines }
        requires word { word < 3 }
        ensures ok { OnOk result (plan.new ≡ grown plan.old (write_stores (epoch_of self.now.state) (bank_load self.now.bank) plan.old.stores (write line word value))) }
        ensures planned { IsPlanned (epoch_of self.now.state) self.now.bank.lines plan.old.stores → IsPlanned (epoch_of self.now.state) self.now.bank.lines plan.new.stores }
        ensures refused { OnErr result (plan.new ≡ plan.old) }
    {
        plan.make_room(self.stores_needed(line, plan))?;
        self.plan_reserved(line, word, value, plan);
        Ok(())
    }

    /// Plans a write as `plan_write` does, in the plan's own room, which falls by the number of the stores. It takes no memory.
    pub fn plan_reserved(&self, line: u32, word: u32, value: u64, plan: &mut Plan)
        requires running { IsRunning self.now.state }
        requires line { line < length self.now.bank.lines }
        requires word { word < 3 }
        requires room { length (write_stores (epoch_of self.now.state) (bank_load self.now.bank) plan.old.stores (write line word value)) ≤ plan.old.spare }
        ensures is { plan.new ≡ filled plan.old (write_stores (epoch_of self.now.state) (bank_load self.now.bank) plan.old.stores (write line word value)) }
        ensures planned { IsPlanned (epoch_of self.now.state) self.now.bank.lines plan.old.stores → IsPlanned (epoch_of self.now.state) self.now.bank.lines plan.new.stores }
    {
        self.plan_stores(line, word, value, plan);
    }

    /// Makes the first store of the plan, and takes it out of the plan. It takes no memory.
    pub fn play(&mut self, plan: &mut Plan)
        requires running { IsRunning self.old.state }
        requires left { 0 < length plan.old.stores }
        requires planned { IsPlanned (epoch_of self.old.state) self.old.bank.lines plan.old.stores }
        requires room { HasPlacesFor self.old.bank.lines plan.old.stores }
        ensures store { self.new ≡ played self.old plan.old.stores }
        ensures plan { plan.new ≡ plan_behind plan.old }
        ensures planned { IsPlanned (epoch_of self.old.state) self.new.bank.lines plan.new.stores }
        ensures room { HasPlacesFor self.new.bank.lines plan.new.stores }
        ensures behind { stored_in (bank_load self.new.bank) plan.new.stores ≡ stored_in (bank_load self.old.bank) plan.old.stores }
        ensures cells { IsCellBank self.new }
    {
        let first = plan.take_first();
        let _state = self.state;
        self.bank.store(first.line, first.word, first.value);
        self.stored.mark(first.line);
    }

    /// Ends the stores of the epoch, and says how many lines were stored to in it. Where none was, the cells are saved.
    pub fn close_begin(&mut self) -> u32
        requires { MayClose self.old.state }
        ensures count { result ≡ count_by is_pending self.old.bank.lines }
        ensures unasked { unasked self.old.bank.lines ≡ result }
        ensures is { self.new ≡ with_state self.old (closing_state result self.old.state) }
        ensures cells { IsCellBank self.new }
    {
        let count = self.stored.len();
        self.state = self.state.closing(count);
        count
    }

    /// Of the lines that were stored to in the epoch and are not yet written back, it writes back the one whose first store
    /// came first, and says whether another is left. It looks at no other line.
    pub fn close_next(&mut self) -> bool
        requires closing { IsClosing self.old.state }
        requires left { 0 < unasked self.old.bank.lines }
        ensures line { WritesOneBack self.old.bank self.new.bank }
        ensures first { self.new.bank ≡ bank_written_back self.old.bank (next_in self.old) }
        ensures is { self.new ≡ record self.old { bank = self.new.bank } }
        ensures fewer { unasked self.old.bank.lines ≡ unasked self.new.bank.lines + 1 }
        ensures more { IsTrue result ↔ (0 < unasked self.new.bank.lines) }
        ensures cells { IsCellBank self.new }
    {
        let line = self.stored.next().unwrap();
        self.bank.write_back(line);
        !self.stored.is_all_given()
    }

    /// Moves all that is pending into memory: the cells are saved. Each cell has at the epoch the triple that it had, and
    /// memory holds what loads gave and give. It looks only at the lines that were stored to.
    pub fn close_fence(&mut self)
        requires closing { IsClosing self.old.state }
        requires asked { unasked self.old.bank.lines ≡ 0 }
        ensures is { self.new ≡ record self.old { bank = bank_fenced self.old.bank; state = CellState.Saved (epoch_of self.old.state); stored = [] } }
        ensures in_memory { memory_words (epoch_of self.old.state) self.new.bank ≡ memory_words (epoch_of self.old.state) self.old.bank }
        ensures loads { HasSameRoom (bank_load self.new.bank) (bank_load self.old.bank) }
        ensures room { KeepsPlaces self.old.bank self.new.bank }
        ensures cells { IsCellBank self.new }
    {
        self.state = CellState::Saved(self.state.epoch());
        self.bank.fence();
        self.stored.clear();
    }

    /// Does the next event of the restore; where none is left the cells are saved, with the triples of the epoch as their
    /// loads. On cells that are saved it does nothing. Behind the call the restore may go on. It takes no memory.
    pub fn restore_next(&mut self) -> RestoreStep
        requires { MayRestore self.old.state }
        ensures step { result ≡ next_step self.old.todo }
        ensures is { self.new ≡ after_next self.old }
        ensures goes_on { MayRestore self.new.state }
        ensures in_memory { memory_words (epoch_of self.old.state) self.new.bank ≡ memory_words (epoch_of self.old.state) self.old.bank }
        ensures room { KeepsPlaces self.old.bank self.new.bank }
        ensures restored { IsTorn self.old.state → self.old.todo ≡ [] → AreRestored (epoch_of self.old.state) self.new.bank.lines }
        ensures loads { IsTorn self.old.state → self.old.todo ≡ [] → HasSameRecords (bank_load self.new.bank) (memory_words (epoch_of self.old.state) self.old.bank) }
        ensures cells { IsCellBank self.new }
    {
        if self.todo.is_empty() {
            self.state = CellState::Saved(self.state.epoch());
            return RestoreStep::Finished;
        }
        let event = self.todo.take_first();
        do_event(&mut self.bank, event)
    }

    /// Whether a write of this line has to make its backup first.
    fn needs_backup(&self, line: u32, plan: &Plan) -> bool
        requires { line < length self.now.bank.lines }
        ensures is { result ≡ not (needs_none (epoch_of self.now.state) (bank_load self.now.bank) plan.now.stores line) }
        ensures cells { IsCellBank self.now }
    {
        let epoch = u64::from(self.state.epoch());
        self.bank.load(line, TAG) != epoch && !plan.touches(line)
    }

    /// How many stores a write of this line takes.
    fn stores_needed(&self, line: u32, plan: &Plan) -> u32
        requires { line < length self.now.bank.lines }
        ensures { result ≡ (if needs_none (epoch_of self.now.state) (bank_load self.now.bank) plan.now.stores line then 1 else 5) }
    {
        if self.needs_backup(line, plan) { 5 } else { 1 }
    }

    /// Plans the stores of a write.
    fn plan_stores(&self, line: u32, word: u32, value: u64, plan: &mut Plan)
        requires line { line < length self.now.bank.lines }
        requires room { length (write_stores (epoch_of self.now.state) (bank_load self.now.bank) plan.old.stores (write line word value)) ≤ plan.old.spare }
        ensures is { plan.new ≡ filled plan.old (write_stores (epoch_of self.now.state) (bank_load self.now.bank) plan.old.stores (write line word value)) }
        ensures cells { IsCellBank self.now }
    {
        if !self.needs_backup(line, plan) {
            plan.push(PlannedStore { line, word, value });
            return;
        }
        self.plan_backup(line, plan);
        plan.push(PlannedStore { line, word, value });
    }

    /// Plans the backup of a line's record, and then its tag.
    fn plan_backup(&self, line: u32, plan: &mut Plan)
        requires line { line < length self.now.bank.lines }
        requires room { 4 ≤ plan.old.spare }
        ensures { plan.new ≡ filled plan.old (backup_stores (epoch_of self.now.state) (bank_load self.now.bank) line) }
    {
        let [first, second, third] = self.triple(line);
        let epoch = u64::from(self.state.epoch());
        plan.push(PlannedStore {
            line,
            word: 3,
            value: first,
        });
        plan.push(PlannedStore {
            line,
            word: 4,
            value: second,
        });
        plan.push(PlannedStore {
            line,
            word: 5,
            value: third,
        });
        plan.push(PlannedStore {
            line,
            word: TAG,
            value: epoch,
        });
    }
}

/// Whether a store is pending on the line or has a place.
fn has_places(bank: &Bank, line: u32) -> bool
    requires { line < length bank.now.lines }
    ensures { result ≡ has_places (line_at bank.now.lines line) }
{
    bank.pending(line) > 0 || bank.spare(line) > 0
}

/// A list with a place for each line that has room for stores. For a bank of one line it takes no memory.
fn list_for(alloc: Global, bank: &Bank) -> Result<FlushList, AllocError>
    ensures none { IfOk result (λ list. list.lines ≡ []) }
    ensures keeps { IfOk result (λ list. KeepsList bank.now.lines list) }
{
    let mut list = FlushList::new(alloc);
    let lines = bank.lines();
    if lines <= 1 {
        return Ok(list);
    }
    for line in 0..lines {
        place_at(&mut list, bank, line)?;
    }
    Ok(list)
}

/// Makes a place in the list for a line that has room for stores.
fn place_at(list: &mut FlushList, bank: &Bank, line: u32) -> Result<(), AllocError>
    requires { line < length bank.now.lines }
    ensures place { OnOk result (has_places (line_at bank.now.lines line) ≡ true → list.old.spare < list.new.spare) }
    ensures same { list.new ≡ record list.old { spare = list.new.spare } }
    ensures kept { list.old.spare ≤ list.new.spare }
{
    if !has_places(bank, line) {
        return Ok(());
    }
    more_places(list)
}

/// Makes a place in the list for a line that is to have room for stores, where it has none yet. A bank of one line needs none.
fn place_for(list: &mut FlushList, bank: &Bank, line: u32) -> Result<(), AllocError>
    requires line { line < length bank.now.lines }
    requires keeps { KeepsList bank.now.lines list.old }
    ensures place { OnOk result ((spare : ℕ) → KeepsList (slice_set bank.now.lines line (with_spare (line_at bank.now.lines line) spare)) list.new) }
    ensures same { list.new ≡ record list.old { spare = list.new.spare } }
    ensures refused { OnErr result (list.new ≡ list.old) }
{
    if bank.lines() <= 1 {
        return Ok(());
    }
    if has_places(bank, line) {
        return Ok(());
    }
    more_places(list)?;
    Ok(())
}

/// Makes one more place in the list at least.
fn more_places(list: &mut FlushList) -> Result<(), AllocError>
    ensures more { OnOk result (list.old.spare < list.new.spare) }
    ensures same { list.new ≡ record list.old { spare = list.new.spare } }
    ensures kept { list.old.spare ≤ list.new.spare }
    ensures refused { OnErr result (list.new ≡ list.old) }
{
    let spare = list.spare();
    if spare == u32::MAX {
        return Err(AllocError);
    }
    list.reserve(spare + 1)
}
