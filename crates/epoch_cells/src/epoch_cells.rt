//! Cells with their epoch, and the calls of both.

ghost use Rattle.std.specs.Prelude.{◌≡◌, ◌+◌, ◌<◌, ◌^◌, ◌⊎◌, ◌↔◌, ◌≢◌, false, [], ◌∷◌, length, map, slice_index, if◌then◌else◌, IsTrue, IfOk, OnOk, OnErr};
ghost use Rattle.room_model.specs.Writes.{AreWithin};
ghost use Rattle.epoch_cells.specs.Cells.{AreEpochCells, CanRecover, IsAtRest, IsSpent, cell_count, records, saved_records, recovered_records, settled_records, column, after_writes, is_last, events_left};
ghost use Rattle.epoch_cells.specs.Events.{AreRecords, new_cell, new_epoch};

use crate::events::{next_event, plan_writes};
use crate::stage::Stage;
use epoch_word::SuperRoom;
use incll_var::{CellBank, Plan};
use line_memory::Bank;
use planned_cells::{CellRoom, PlannedCells};
use room_laws::stores_law;
use room_model::Write;
use std::alloc::{AllocError, Global};
use std::marker::Model;

/// Cells, the super room with the epoch of memory, and which event comes next.
#[derive(Drop)]
pub struct EpochCells {
    cells: PlannedCells,
    epoch: SuperRoom,
    stage: Stage,
}

impl Model for EpochCells {
    ghost use Rattle.epoch_cells.specs.Cells.{EpochCellsState, AreEpochCells};

    ghost Value = { EpochCellsState };

    ghost view = { λ a. record { cells = a.cells.cells; plan = a.cells.plan; epoch = a.epoch; stage = a.stage } };

    ghost invariant = { λ a. AreEpochCells (record { cells = a.cells.cells; plan = a.cells.plan; epoch = a.epoch; stage = a.stage }) };
}

impl EpochCells {
    /// Cells with these records, on new memory of epoch 1. They are opened by the events of a recovery, as all cells are. Want of memory is
    /// its one refusal.
    pub fn new(alloc: Global, first: &[[u64; 3]]) -> Result<EpochCells, AllocError>
        requires { length first.now < 2 ^ 32 }
        ensures records { IfOk result (λ s. records s ≡ first.now) }
        ensures saved { IfOk result (λ s. saved_records s ≡ first.now) }
        ensures stage { IfOk result (λ s. s.stage ≡ Stage.Restoring) }
        ensures whole { IfOk result AreEpochCells }
    {
        let cells = Bank::of(alloc, cells_of(alloc, first)?)?;
        let epoch = Bank::of(alloc, epoch_of(alloc)?)?;
        let new = EpochCells::recover(alloc, cells, epoch)?;
        Ok(new)
    }

    /// The cells that a power cut left: their bank, and the bank of the super room. The events of a recovery are left. Want of memory is
    /// its one refusal; the banks are then given up.
    pub fn recover(alloc: Global, cells: Bank, epoch: Bank) -> Result<EpochCells, AllocError>
        requires { CanRecover cells epoch }
        ensures records { IfOk result (λ s. records s ≡ recovered_records cells epoch) }
        ensures saved { IfOk result (λ s. saved_records s ≡ recovered_records cells epoch) }
        ensures stage { IfOk result (λ s. s.stage ≡ Stage.Restoring) }
        ensures whole { IfOk result AreEpochCells }
    {
        let epoch = SuperRoom::of(epoch)?;
        let cells = CellBank::torn(alloc, cells, epoch.epoch())?;
        Ok(EpochCells {
            cells: PlannedCells::of(cells, Plan::new(alloc)),
            epoch,
            stage: Stage::Restoring,
        })
    }

    /// How many cells there are. They are numbered from 0 on.
    pub fn count(&self) -> u32
        ensures count { result ≡ cell_count self.now }
        ensures whole { AreEpochCells self.now }
    {
        let _stage = self.stage;
        self.cells.cells().lines()
    }

    /// Whether the cells are open, and no store is left.
    pub fn is_at_rest(&self) -> bool
        ensures rest { IsTrue result ↔ IsAtRest self.now }
        ensures whole { AreEpochCells self.now }
    {
        self.stage == Stage::Open && self.cells.is_idle()
    }

    /// A word, from 0 to 2, of the record of a cell, at rest.
    pub fn word(&self, cell: u32, word: u32) -> u64
        requires rest { IsAtRest self.now }
        requires cell { cell < cell_count self.now }
        requires word { word < 3 }
        ensures word { result ≡ slice_index (column word (records self.now)) cell }
        ensures whole { AreEpochCells self.now }
    {
        let _stage = self.stage;
        self.cells.load(cell, word)
    }

    /// The bank of the cells, and then that of the super room.
    pub fn banks(&self) -> (&Bank, &Bank)
        ensures cells { result.0.now ≡ self.now.cells.bank }
        ensures epoch { result.1.now ≡ self.now.epoch }
        ensures whole { AreEpochCells self.now }
    {
        let _stage = self.stage;
        (self.cells.bank(), self.epoch.bank())
    }

    /// Begins these writes of record words, at rest. Their stores are now left. Want of memory is its one refusal; then nothing was begun.
    pub fn write(&mut self, writes: &[Write]) -> Result<(), AllocError>
        requires rest { IsAtRest self.old }
        requires within { AreWithin (cell_count self.old) writes.now }
        ensures written { OnOk result (records self.new ≡ after_writes (records self.old) writes.now) }
        ensures refused { OnErr result (records self.new ≡ records self.old) }
        ensures saved { saved_records self.new ≡ saved_records self.old }
        ensures open { self.new.stage ≡ Stage.Open }
        ensures whole { AreEpochCells self.new }
    {
        stores_law();
        plan_writes(&mut self.cells, writes)?;
        Ok(())
    }

    /// Begins a checkpoint, at rest. Its events are now left.
    pub fn checkpoint(&mut self)
        requires { IsAtRest self.old }
        ensures records { records self.new ≡ records self.old }
        ensures saved { saved_records self.new ≡ saved_records self.old }
        ensures stage { self.new.stage ≢ Stage.Open }
        ensures whole { AreEpochCells self.new }
    {
        let count = self.cells.close_begin();
        self.stage = if count == 0 {
            Stage::Fenced
        } else {
            Stage::WritingBack
        };
    }

    /// Makes the next event, and says whether there was one. It takes no memory.
    pub fn step(&mut self) -> bool
        ensures records { records self.new ≡ records self.old }
        ensures saved { saved_records self.new ≡ (if is_last self.old.stage then records self.old else saved_records self.old) }
        ensures settled { settled_records self.new ≡ settled_records self.old }
        ensures fewer { IsTrue result → events_left self.new < events_left self.old }
        ensures none { result ≡ false → (self.new ≡ self.old) × (IsAtRest self.old ⊎ IsSpent self.old) }
        ensures whole { AreEpochCells self.new }
    {
        let stage = self.stage;
        if stage == Stage::Open && self.cells.left() == 0 {
            return false;
        }
        if stage == Stage::Fenced && self.epoch.epoch() == u32::MAX {
            return false;
        }
        self.stage = next_event(&mut self.cells, &mut self.epoch, stage);
        true
    }

    /// Makes all events that are left: the cells are at rest, or memory has had its last epoch. It takes no memory.
    pub fn finish(&mut self)
        ensures records { records self.new ≡ records self.old }
        ensures saved { IsAtRest self.new → saved_records self.new ≡ settled_records self.old }
        ensures over { IsAtRest self.new ⊎ IsSpent self.new }
        ensures whole { AreEpochCells self.new }
    {
        while self.step() {}
    }
}

/// The words of new cells with these records, which have three words each.
fn cells_of(alloc: Global, first: &[[u64; 3]]) -> Result<Vec<[u64; 8]>, AllocError>
    ensures is { IfOk result (λ base. base.items ≡ map new_cell first.now) }
    ensures three { IfOk result (λ base. AreRecords first.now) }
{
    let mut base = Vec::new(alloc);
    for words in first {
        base.push([words[0], words[1], words[2], 0, 0, 0, 0, 0])?;
    }
    Ok(base)
}

/// The words of a new super room.
fn epoch_of(alloc: Global) -> Result<Vec<[u64; 8]>, AllocError>
    ensures { IfOk result (λ base. base.items ≡ new_epoch ∷ []) }
{
    let mut base = Vec::new(alloc);
    base.push([1, 0, 0, 0, 0, 0, 0, 0])?;
    Ok(base)
}
