//! A room whose cells carry out one command at a time. The crates of the two kinds of rooms plan over its cells, in the plan
//! that they take out while nothing is under way.

ghost use Rattle.std.specs.Prelude.{◌≡◌, ◌<◌, [], None, Some, length, OnOk, OnErr};
ghost use Rattle.seq_object.specs.Object.{reply_to, contents_after};
ghost use Rattle.line_memory.specs.Line.{bank_load};
ghost use Rattle.room_model.specs.Writes.{AreStoresWithin};
ghost use Rattle.incll_var.specs.Plans.{HasPlacesFor, cleared};
ghost use Rattle.incll_var.specs.Cells.{HasSameCells};
ghost use Rattle.planned_cells.specs.Planned.{no_plan};

use crate::noted_list::NotedList;
use crate::runs_commands::RunsCommands;
use crate::under_way::UnderWay;
use incll_var::{CellBank, Plan, RestoreStep};
use line_memory::Bank;
use planned_cells::{CellRoom, PlannedCells};
use seq_object::{Command, Entry, Noted, Reply, Settings};
use std::alloc::{AllocError, Global};
use std::marker::Model;

/// A room of cells, with the command that is under way in it and the entries of those that are done.
#[derive(Drop)]
pub struct CommandRoom {
    settings: Settings,
    room: u32,
    planned: PlannedCells,
    under_way: Option<UnderWay>,
    history: NotedList,
}

impl Model for CommandRoom {
    ghost use Rattle.command_room.specs.Room.{CommandRoomState, IsCommandRoom};

    ghost Value = { CommandRoomState };

    ghost view = { λ a. record { settings = a.settings; room = a.room; cells = a.planned.cells; plan = a.planned.plan; under_way = a.under_way; history = a.history } };

    ghost invariant = { λ a. IsCommandRoom (record { settings = a.settings; room = a.room; cells = a.planned.cells; plan = a.planned.plan; under_way = a.under_way; history = a.history }) };
}

impl CommandRoom {
    ghost use Rattle.command_room.specs.Room.{IsCommandRoom, MayBeRoom, HasPlanned, contents_in, memory_words_of, sizes_in, new_room, with_plan, with_entries, on_bank, begun};

    /// The room of this number of these cells: a shard's, or the number of shards for the queue room. No command is under
    /// way, and none done. Cells that a cut left are the room of what their restore brings back. It takes no memory.
    pub fn of(alloc: Global, cells: CellBank, settings: Settings, room: u32) -> CommandRoom
        requires { MayBeRoom settings room cells }
        ensures is { result ≡ new_room settings room cells }
        ensures room { IsCommandRoom result }
    {
        CommandRoom {
            settings,
            room,
            planned: PlannedCells::of(cells, Plan::new(alloc)),
            under_way: None,
            history: NotedList::new(alloc),
        }
    }

    /// The settings of the memory that the room is one of.
    pub fn settings(&self) -> Settings
        ensures settings { result ≡ self.now.settings }
        ensures room { IsCommandRoom self.now }
    {
        let _left = self.planned.left();
        self.settings
    }

    /// The cells of the room.
    pub fn cells(&self) -> &CellBank
        ensures cells { result.now ≡ self.now.cells }
        ensures room { IsCommandRoom self.now }
    {
        let _room = self.room;
        self.planned.cells()
    }

    /// Takes the plan out, with the room that it has, so that a command can be planned in it.
    pub fn take_plan(&mut self) -> Plan
        requires { self.old.under_way ≡ None }
        ensures plan { result ≡ self.old.plan }
        ensures nothing { result.stores ≡ [] }
        ensures is { self.new ≡ with_plan self.old no_plan }
        ensures contents { contents_in self.new ≡ contents_in self.old }
        ensures room { IsCommandRoom self.new }
    {
        self.planned.take_plan()
    }

    /// Puts a plan back, and drops what is planned in it.
    pub fn put_back(&mut self, plan: Plan)
        requires { self.old.under_way ≡ None }
        ensures is { self.new ≡ with_plan self.old (cleared plan) }
        ensures contents { contents_in self.new ≡ contents_in self.old }
        ensures room { IsCommandRoom self.new }
    {
        let mut plan = plan;
        plan.clear();
        self.planned.put_plan(plan);
    }

    /// Begins the command whose stores are planned, with this reply. It makes room for all its stores and for its entry,
    /// before any store. Refused, for want of memory, it has dropped the stores of the plan and may have made some room; no
    /// load, entry or state has changed.
    pub fn begin_planned(
        &mut self,
        plan: Plan,
        command: Command,
        reply: Reply,
    ) -> Result<(), AllocError>
        requires { HasPlanned (with_plan self.old plan) command reply }

        ensures ok { OnOk result (self.new ≡ begun (with_plan self.old plan) self.new.cells.bank self.new.history.spare command reply) }
        ensures reply { reply_to (sizes_in self.old) (contents_in self.old) command ≡ Some reply }
        ensures contents { OnOk result (contents_in self.new ≡ contents_after (sizes_in self.old) (contents_in self.old) command) }

        ensures refused { OnErr result (self.new ≡ with_entries (on_bank (with_plan self.old (cleared plan)) self.new.cells.bank) self.new.history.spare) }
        ensures kept { OnErr result (contents_in self.new ≡ contents_in self.old) }

        ensures same { HasSameCells self.old.cells.bank self.new.cells.bank }
        ensures loads { bank_load self.new.cells.bank ≡ bank_load self.old.cells.bank }
        ensures in_memory { memory_words_of self.new ≡ memory_words_of self.old }
        ensures room { IsCommandRoom self.new }
    {
        if let Err(error) = self.make_room(&plan) {
            self.put_back(plan);
            return Err(error);
        }
        self.planned.put_plan(plan);
        self.under_way = Some(UnderWay { command, reply });
        Ok(())
    }

    /// Makes room for the stores of a plan and for an entry. Refused, it may have made some.
    fn make_room(&mut self, plan: &Plan) -> Result<(), AllocError>
        requires idle { self.old.under_way ≡ None }
        requires places { AreStoresWithin (length self.old.cells.bank.lines) plan.now.stores }
        ensures is { self.new ≡ with_entries (on_bank self.old self.new.cells.bank) self.new.history.spare }
        ensures same { HasSameCells self.old.cells.bank self.new.cells.bank }
        ensures stores { OnOk result (HasPlacesFor self.new.cells.bank.lines plan.now.stores) }
        ensures entry { OnOk result (0 < self.new.history.spare) }
        ensures nothing { self.old.plan.stores ≡ [] }
        ensures contents { contents_in self.new ≡ contents_in self.old }
        ensures in_memory { memory_words_of self.new ≡ memory_words_of self.old }
        ensures room { IsCommandRoom self.new }
    {
        self.history.reserve()?;
        self.planned.ready(plan)
    }
}

impl RunsCommands for CommandRoom {
    ghost state = { λ s. s };

    fn left(&self) -> u32 {
        let _room = self.room;
        self.planned.left()
    }

    fn step(&mut self) -> bool {
        self.planned.step()
    }

    fn note(&mut self, ticket: u64, entry: Entry) {
        self.history.push(Noted { ticket, entry });
        self.under_way = None;
    }

    fn history(&self) -> &[Noted] {
        let _left = self.planned.left();
        self.history.as_slice()
    }
}

impl CellRoom for CommandRoom {
    ghost use Rattle.std.specs.Prelude.{◌≡◌, None};
    ghost use Rattle.command_room.specs.Room.{IsCommandRoom, words_of, with_cells};

    ghost cells = { λ s. s.cells };

    ghost with_cells = { with_cells };

    ghost words = { words_of };

    ghost IsIdle = { λ s. s.under_way ≡ None };

    ghost IsWhole = { IsCommandRoom };

    ghost HasCells = { λ s. Unit {0} };

    fn enter(&mut self, epoch: u32) {
        self.planned.enter(epoch);
    }

    fn close_begin(&mut self) -> u32 {
        self.planned.close_begin()
    }

    fn close_next(&mut self) -> bool {
        self.planned.close_next()
    }

    fn close_fence(&mut self) {
        self.planned.close_fence();
    }

    fn restore_next(&mut self) -> RestoreStep {
        self.planned.restore_next()
    }

    fn is_idle(&self) -> bool {
        let _left = self.planned.left();
        self.under_way.is_none()
    }

    fn bank(&self) -> &Bank {
        let _room = self.room;
        self.planned.bank()
    }

    fn load(&self, line: u32, word: u32) -> u64 {
        let _room = self.room;
        self.planned.load(line, word)
    }

    fn into_bank(self) -> Bank {
        let CommandRoom {
            settings: _,
            room: _,
            planned,
            under_way: _,
            history: _,
        } = self;
        planned.into_bank()
    }
}
