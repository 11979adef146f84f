//! Cells with a plan, and the calls of both.

ghost use Rattle.std.specs.Prelude.{◌≡◌, ◌<◌, ◌↔◌, [], length, IsTrue, OnOk};
ghost use Rattle.room_model.specs.Chains.{HasSameRecords};
ghost use Rattle.room_model.specs.Writes.{AreStoresWithin};
ghost use Rattle.incll_var.specs.Cells.{IsRunning, HasSameCells, epoch_of};
ghost use Rattle.incll_var.specs.Plans.{IsPlanned, HasPlacesFor};
ghost use Rattle.planned_cells.specs.Planned.{ArePlannedCells, planned_words, memory_words_in, no_plan, with_bank, stepped, with_cells};

use crate::cell_room::CellRoom;
use incll_var::{CellBank, Plan, RestoreStep};
use line_memory::Bank;
use std::alloc::AllocError;
use std::marker::Model;

/// A bank of cells, and the stores that are left of what is under way in it.
#[derive(Drop)]
pub struct PlannedCells {
    cells: CellBank,
    plan: Plan,
}

impl Model for PlannedCells {
    ghost use Rattle.planned_cells.specs.Planned.{PlannedState, ArePlannedCells};

    ghost Value = { PlannedState };

    ghost view = { λ a. record { cells = a.cells; plan = a.plan } };

    ghost invariant = { λ a. ArePlannedCells a.cells a.plan };
}

impl PlannedCells {
    /// These cells, in any state, with a plan of which no store is left.
    pub fn of(cells: CellBank, plan: Plan) -> PlannedCells
        requires { plan.stores ≡ [] }
        ensures is { result ≡ record { cells = cells; plan = plan } }
        ensures whole { ArePlannedCells result.cells result.plan }
    {
        let _lines = cells.lines();
        PlannedCells { cells, plan }
    }

    /// The cells.
    pub fn cells(&self) -> &CellBank
        ensures cells { result.now ≡ self.now.cells }
        ensures whole { ArePlannedCells self.now.cells self.now.plan }
    {
        let _left = self.plan.left();
        &self.cells
    }

    /// How many stores are left.
    pub fn left(&self) -> u32
        ensures left { result ≡ length self.now.plan.stores }
        ensures whole { ArePlannedCells self.now.cells self.now.plan }
    {
        let _lines = self.cells.lines();
        self.plan.left()
    }

    /// Takes the plan out, where no store is left, so that it can be planned in with the room that it has.
    pub fn take_plan(&mut self) -> Plan
        requires { self.old.plan.stores ≡ [] }
        ensures plan { result ≡ self.old.plan }
        ensures is { self.new ≡ record self.old { plan = no_plan } }
        ensures whole { ArePlannedCells self.new.cells self.new.plan }
    {
        self.plan.take()
    }

    /// Puts a plan in the place of the one that is there. Its stores may be made on these cells, and there is room for them.
    pub fn put_plan(&mut self, plan: Plan)
        requires planned { IsPlanned (epoch_of self.old.cells.state) self.old.cells.bank.lines plan.stores }
        requires has_places { HasPlacesFor self.old.cells.bank.lines plan.stores }
        requires running { 0 < length plan.stores → IsRunning self.old.cells.state }
        ensures is { self.new ≡ record self.old { plan = plan } }
        ensures whole { ArePlannedCells self.new.cells self.new.plan }
    {
        self.plan = plan;
    }

    /// Makes room on the lines for all stores of a plan, while no store is left of the one that is here. It refuses for want
    /// of memory, and where the stores of a line would be more than 2^32 - 1. Refused, it may have made some room, and has
    /// changed nothing else.
    pub fn ready(&mut self, plan: &Plan) -> Result<(), AllocError>
        requires idle { self.old.plan.stores ≡ [] }
        requires places { AreStoresWithin (length self.old.cells.bank.lines) plan.now.stores }
        ensures room { OnOk result (HasPlacesFor self.new.cells.bank.lines plan.now.stores) }
        ensures is { self.new ≡ with_cells self.old (with_bank self.old.cells self.new.cells.bank) }
        ensures same { HasSameCells self.old.cells.bank self.new.cells.bank }
        ensures whole { ArePlannedCells self.new.cells self.new.plan }
    {
        self.cells.ready(plan)
    }

    /// Makes the first store that is left, and says whether another is left. It takes no memory.
    pub fn step(&mut self) -> bool
        requires { 0 < length self.old.plan.stores }
        ensures is { self.new ≡ stepped self.old }
        ensures more { IsTrue result ↔ (0 < length self.new.plan.stores) }
        ensures state { self.new.cells.state ≡ self.old.cells.state }
        ensures lines { length self.new.cells.bank.lines ≡ length self.old.cells.bank.lines }
        ensures words { planned_words self.new.cells self.new.plan ≡ planned_words self.old.cells self.old.plan }
        ensures in_memory { memory_words_in self.new.cells ≡ memory_words_in self.old.cells }
        ensures whole { ArePlannedCells self.new.cells self.new.plan }
    {
        self.cells.play(&mut self.plan);
        self.plan.left() > 0
    }
}

impl CellRoom for PlannedCells {
    ghost use Rattle.std.specs.Prelude.{[], ◌≡◌};
    ghost use Rattle.planned_cells.specs.Planned.{ArePlannedCells, planned_words, with_cells};

    ghost cells = { λ p. p.cells };

    ghost with_cells = { with_cells };

    ghost words = { λ p. planned_words p.cells p.plan };

    ghost IsIdle = { λ p. p.plan.stores ≡ [] };

    ghost IsWhole = { λ p. ArePlannedCells p.cells p.plan };

    ghost HasCells = { λ p. Unit {0} };

    fn enter(&mut self, epoch: u32) {
        self.cells.enter(epoch);
    }

    fn close_begin(&mut self) -> u32 {
        self.cells.close_begin()
    }

    fn close_next(&mut self) -> bool {
        self.cells.close_next()
    }

    fn close_fence(&mut self) {
        self.cells.close_fence();
    }

    fn restore_next(&mut self) -> RestoreStep {
        self.cells.restore_next()
    }

    fn is_idle(&self) -> bool {
        let _lines = self.cells.lines();
        self.plan.left() == 0
    }

    fn bank(&self) -> &Bank {
        let _left = self.plan.left();
        self.cells.bank()
    }

    fn load(&self, line: u32, word: u32) -> u64 {
        let _left = self.plan.left();
        self.cells.load(line, word)
    }

    fn into_bank(self) -> Bank {
        let PlannedCells { cells, plan: _ } = self;
        cells.into_bank()
    }
}
