//! The room of a thread, and its calls. All that it may store in an epoch is planned in room that was made at first.

ghost use Rattle.std.specs.Prelude.{◌≡◌, ◌+◌, ◌<◌, ◌↔◌, [], length, IsTrue, IfOk};
ghost use Rattle.line_memory.specs.Line.{line_at, bank_load};
ghost use Rattle.room_model.specs.Chains.{with_word, HasSameRecords};
ghost use Rattle.incll_var.specs.Cells.{MayRestore, HasSameCells};
ghost use Rattle.planned_cells.specs.Planned.{memory_words_in};
ghost use Rattle.restart_point.specs.Rooms.{position_of, position_behind, room_behind, words_of, IsIdle, IsUnwritten, IsThreadRoom, begun, stepped, with_line_spare};

use crate::thread_end::ThreadEnd;
use incll_var::{CellBank, Plan, RestoreStep};
use line_memory::Bank;
use planned_cells::{CellRoom, PlannedCells};
use std::alloc::{AllocError, Global};
use std::marker::Model;

/// The stores that an epoch may make in a thread's room.
const STORES: u32 = 5;

/// A thread's room. It is entered, closed and restored as each room of cells, by the calls of `CellRoom`.
#[derive(Drop)]
pub struct ThreadRoom {
    planned: PlannedCells,
    end: ThreadEnd,
}

impl Model for ThreadRoom {
    ghost use Rattle.restart_point.specs.Rooms.{ThreadRoomState, IsThreadRoom};

    ghost Value = { ThreadRoomState };

    ghost view = { λ a. record { cells = a.planned.cells; plan = a.planned.plan; end = a.end } };

    ghost invariant = { λ a. IsThreadRoom (record { cells = a.planned.cells; plan = a.planned.plan; end = a.end }) };
}

impl ThreadRoom {
    /// The room of a thread over one cell, in any state. It makes room for the five stores of an epoch, so that no later
    /// call takes memory. Want of memory is its one refusal; the cells are then given up.
    pub fn of(alloc: Global, cells: CellBank, end: ThreadEnd) -> Result<ThreadRoom, AllocError>
        requires { length cells.bank.lines ≡ 1 }
        ensures cells { IfOk result (λ room. room.cells ≡ with_line_spare cells (line_at room.cells.bank.lines 0).spare) }
        ensures same { IfOk result (λ room. HasSameCells cells.bank room.cells.bank) }
        ensures idle { IfOk result (λ room. IsIdle room) }
        ensures end { IfOk result (λ room. room.end ≡ end) }
        ensures room { IfOk result (λ room. IsThreadRoom room) }
    {
        let mut cells = cells;
        let mut plan = Plan::new(alloc);
        plan.reserve(STORES)?;
        cells.reserve(0, STORES)?;
        Ok(ThreadRoom {
            planned: PlannedCells::of(cells, plan),
            end,
        })
    }

    /// Begins a write of the position, in an epoch in which it was not yet written, and tells the end. The write has five
    /// stores, which are now left. It takes no memory.
    pub fn begin(&mut self, position: u64, end: ThreadEnd)
        requires { IsUnwritten self.old }
        ensures is { self.new ≡ begun self.old position end }
        ensures five { length self.new.plan.stores ≡ 5 }
        ensures behind { HasSameRecords (room_behind self.new) (with_word (bank_load self.old.cells.bank) 0 0 position) }
        ensures position { position_behind self.new ≡ position }
        ensures room { IsThreadRoom self.new }
    {
        let mut plan = self.planned.take_plan();
        self.planned
            .cells()
            .plan_reserved(0, 0, position, &mut plan);
        self.planned.put_plan(plan);
        self.end = end;
    }

    /// How many stores are left of a write of the position.
    pub fn left(&self) -> u32
        ensures left { result ≡ length self.now.plan.stores }
        ensures room { IsThreadRoom self.now }
    {
        let _end = self.end;
        self.planned.left()
    }

    /// Makes the first store that is left, and says whether another is left. It takes no memory.
    pub fn step(&mut self) -> bool
        requires { 0 < length self.old.plan.stores }
        ensures is { self.new ≡ stepped self.old }
        ensures more { IsTrue result ↔ (0 < length self.new.plan.stores) }
        ensures state { self.new.cells.state ≡ self.old.cells.state }
        ensures words { words_of self.new ≡ words_of self.old }
        ensures behind { room_behind self.new ≡ room_behind self.old }
        ensures in_memory { memory_words_in self.new.cells ≡ memory_words_in self.old.cells }
        ensures room { IsThreadRoom self.new }
    {
        self.planned.step()
    }

    /// Tells the end of a room that is saved or torn.
    pub fn set_end(&mut self, end: ThreadEnd)
        requires state { MayRestore self.old.cells.state }
        ensures is { self.new ≡ record self.old { end = end } }
        ensures room { IsThreadRoom self.new }
    {
        self.end = end;
    }

    /// The position by load.
    pub fn position(&self) -> u64
        ensures position { result ≡ position_of self.now }
        ensures room { IsThreadRoom self.now }
    {
        let _end = self.end;
        self.planned.load(0, 0)
    }

    /// The end that was told last.
    pub fn end(&self) -> ThreadEnd
        ensures end { result ≡ self.now.end }
        ensures room { IsThreadRoom self.now }
    {
        let _left = self.planned.left();
        self.end
    }

    /// The cell of the room.
    pub fn cells(&self) -> &CellBank
        ensures cells { result.now ≡ self.now.cells }
        ensures room { IsThreadRoom self.now }
    {
        let _end = self.end;
        self.planned.cells()
    }
}

impl CellRoom for ThreadRoom {
    ghost use Rattle.restart_point.specs.Rooms.{IsThreadRoom, IsIdle, words_of, with_cells};

    ghost cells = { λ room. room.cells };

    ghost with_cells = { with_cells };

    ghost words = { words_of };

    ghost IsIdle = { IsIdle };

    ghost IsWhole = { IsThreadRoom };

    ghost HasCells = { λ room. Unit {0} };

    fn enter(&mut self, epoch: u32) {
        self.planned.enter(epoch);
    }

    fn close_begin(&mut self) -> u32 {
        self.planned.close_begin()
    }

    fn close_next(&mut self) -> bool {
        self.planned.close_next()
    }

    fn close_fence(&mut self) {
        self.planned.close_fence();
    }

    fn restore_next(&mut self) -> RestoreStep {
        self.planned.restore_next()
    }

    fn is_idle(&self) -> bool {
        let _end = self.end;
        self.planned.is_idle()
    }

    fn bank(&self) -> &Bank {
        let _end = self.end;
        self.planned.bank()
    }

    fn load(&self, line: u32, word: u32) -> u64 {
        let _end = self.end;
        self.planned.load(line, word)
    }

    fn into_bank(self) -> Bank {
        let ThreadRoom { planned, end: _ } = self;
        planned.into_bank()
    }
}
