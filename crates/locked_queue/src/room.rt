//! The queue room: cells that carry out the commands of the queue, one at a time.

ghost use Rattle.std.specs.Prelude.{◌≡◌, ◌<◌, [], None, Some, length, IsTrue, ◌↔◌, OnOk, OnErr, IfOk};
ghost use Rattle.seq_object.specs.Object.{room_of, reply_to, contents_after};
ghost use Rattle.line_memory.specs.Line.{bank_load};
ghost use Rattle.room_model.specs.Walks.{items_of};
ghost use Rattle.incll_var.specs.Cells.{IsRunning, HasSameCells};
ghost use Rattle.command_room.specs.Room.{MayBeRoom, contents_in, memory_words_of, sizes_in, new_room, refused};
ghost use Rattle.locked_queue.specs.Queue.{IsQueue, items_in, answered};
ghost use Rattle.planned_cells.specs.Planned.{IsAtRest};

use crate::plans::plan_command;
use command_room::{CommandRoom, RunsCommands};
use incll_var::{CellBank, RestoreStep};
use line_memory::Bank;
use planned_cells::CellRoom;
use room_walks::{ReadsWords, items};
use seq_object::{Command, Entry, Noted, Reply, Settings};
use std::alloc::{AllocError, Global};
use std::marker::Model;

/// The queue room, with the command that is under way in it and the entries of those that are done. It is
/// entered, closed and restored as each room of cells, by the calls of `CellRoom`, and a command that was begun is carried out
/// by those of `RunsCommands`.
#[derive(Drop)]
pub struct QueueRoom {
    room: CommandRoom,
}

impl Model for QueueRoom {
    ghost use Rattle.command_room.specs.Room.{CommandRoomState};
    ghost use Rattle.locked_queue.specs.Queue.{IsQueue};

    ghost Value = { CommandRoomState };

    ghost view = { λ a. a.room };

    ghost invariant = { λ a. IsQueue a.room };
}

impl QueueRoom {
    /// The queue room of these cells, with no command under way and none done. Cells that a cut left are the room of what their
    /// restore brings back. It takes no memory.
    pub fn of(alloc: Global, cells: CellBank, settings: Settings) -> QueueRoom
        requires { MayBeRoom settings settings.shards cells }
        ensures is { result ≡ new_room settings settings.shards cells }
        ensures room { IsQueue result }
    {
        QueueRoom {
            room: CommandRoom::of(alloc, cells, settings, settings.shards),
        }
    }

    /// Begins a command of the queue, and gives the sequential object's reply: none exactly for a take where the queue is empty,
    /// and then no command is under way and nothing has changed. It plans all stores of the command and makes room for them and
    /// for the command's entry, before any store. Refused, for want of memory, it has dropped the plan and may have made some
    /// room; no command is under way, and no load, entry or state has changed.
    pub fn begin(&mut self, command: Command) -> Result<Option<Reply>, AllocError>
        requires running { IsRunning self.old.cells.state }
        requires idle { self.old.under_way ≡ None }
        requires mine { room_of (sizes_in self.old) command ≡ self.old.room }

        ensures reply { IfOk result (λ reply. reply ≡ reply_to (sizes_in self.old) (contents_in self.old) command) }
        ensures none { IfOk result (λ reply. (reply ≡ None) ↔ ((command ≡ Command.Take) × (items_in self.old ≡ []))) }
        ensures ok { IfOk result (λ reply. self.new ≡ answered self.old self.new.cells.bank self.new.history.spare command reply) }
        ensures contents { OnOk result (contents_in self.new ≡ contents_after (sizes_in self.old) (contents_in self.old) command) }

        ensures refused { OnErr result (self.new ≡ refused self.old self.new.plan.spare self.new.cells.bank self.new.history.spare) }
        ensures kept { OnErr result (contents_in self.new ≡ contents_in self.old) }

        ensures same { HasSameCells self.old.cells.bank self.new.cells.bank }
        ensures loads { bank_load self.new.cells.bank ≡ bank_load self.old.cells.bank }
        ensures in_memory { memory_words_of self.new ≡ memory_words_of self.old }
        ensures room { IsQueue self.new }
    {
        let mut plan = self.room.take_plan();
        match plan_command(self.room.settings(), self.room.cells(), command, &mut plan) {
            Ok(Some(reply)) => {
                self.room.begin_planned(plan, command, reply)?;
                Ok(Some(reply))
            }
            Ok(None) => {
                self.room.put_back(plan);
                Ok(None)
            }
            Err(error) => {
                self.room.put_back(plan);
                Err(error)
            }
        }
    }

    /// The items from front to back, by loads. Where stores are left or the cells are torn it is what the loads give. It refuses
    /// for want of memory alone.
    pub fn entries(&self, alloc: Global) -> Result<Vec<u64>, AllocError>
        ensures loads { IfOk result (λ items. items.items ≡ items_of (sizes_in self.now) (bank_load self.now.cells.bank)) }
        ensures items { IsAtRest self.now.cells self.now.plan → IfOk result (λ items. items.items ≡ items_in self.now) }
        ensures room { IsQueue self.now }
    {
        let cells = self.room.cells();
        items(alloc, cells, cells.lines())
    }

    /// Whether there is no item, by loads.
    pub fn is_empty(&self) -> bool
        ensures first { IsTrue result ↔ (bank_load self.now.cells.bank 1 0 ≡ 0) }
        ensures items { IsAtRest self.now.cells self.now.plan → (IsTrue result ↔ (items_in self.now ≡ [])) }
        ensures room { IsQueue self.now }
    {
        self.room.cells().read(1, 0) == 0
    }
}

impl RunsCommands for QueueRoom {
    ghost state = { λ s. s };

    fn left(&self) -> u32 {
        self.room.left()
    }

    fn step(&mut self) -> bool {
        self.room.step()
    }

    fn note(&mut self, ticket: u64, entry: Entry) {
        self.room.note(ticket, entry);
    }

    fn history(&self) -> &[Noted] {
        self.room.history()
    }
}

impl CellRoom for QueueRoom {
    ghost use Rattle.std.specs.Prelude.{◌≡◌, None};
    ghost use Rattle.command_room.specs.Room.{words_of, with_cells};
    ghost use Rattle.locked_queue.specs.Queue.{IsQueue};

    ghost cells = { λ s. s.cells };

    ghost with_cells = { with_cells };

    ghost words = { words_of };

    ghost IsIdle = { λ s. s.under_way ≡ None };

    ghost IsWhole = { IsQueue };

    ghost HasCells = { λ s. Unit {0} };

    fn enter(&mut self, epoch: u32) {
        self.room.enter(epoch);
    }

    fn close_begin(&mut self) -> u32 {
        self.room.close_begin()
    }

    fn close_next(&mut self) -> bool {
        self.room.close_next()
    }

    fn close_fence(&mut self) {
        self.room.close_fence();
    }

    fn restore_next(&mut self) -> RestoreStep {
        self.room.restore_next()
    }

    fn is_idle(&self) -> bool {
        self.room.is_idle()
    }

    fn bank(&self) -> &Bank {
        self.room.bank()
    }

    fn load(&self, line: u32, word: u32) -> u64 {
        self.room.load(line, word)
    }

    fn into_bank(self) -> Bank {
        let QueueRoom { room } = self;
        room.into_bank()
    }
}
