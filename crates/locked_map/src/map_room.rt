//! A map room: a command room whose number is a shard's.

ghost use Rattle.std.specs.Prelude.{◌≡◌, ◌<◌, [], None, Some, length, IsTrue, ◌↔◌, OnOk, OnErr, IfOk};
ghost use Rattle.seq_object.specs.Object.{reply_to, contents_after, room_of};
ghost use Rattle.seq_object.specs.Plain.{listed};
ghost use Rattle.line_memory.specs.Line.{bank_load};
ghost use Rattle.incll_var.specs.Cells.{IsRunning, HasSameCells};
ghost use Rattle.planned_cells.specs.Planned.{IsAtRest};
ghost use Rattle.command_room.specs.Room.{MayBeRoom, contents_in, memory_words_of, sizes_in, new_room, begun, commanded, refused};
ghost use Rattle.locked_map.specs.Room.{IsMap};

use crate::listing::listed_pairs;
use crate::plans::plan_command;
use command_room::{CommandRoom, RunsCommands};
use incll_var::{CellBank, RestoreStep};
use line_memory::Bank;
use planned_cells::CellRoom;
use room_model::LIVE_HEADS;
use seq_object::{Command, Entry, Noted, Pair, Reply, Settings};
use std::alloc::{AllocError, Global};
use std::marker::Model;

/// The room of a shard. It is entered, closed and restored as each room of cells, by the
/// calls of `CellRoom`, and a command that was begun is carried out by those of `RunsCommands`.
#[derive(Drop)]
pub struct MapRoom {
    room: CommandRoom,
}

impl Model for MapRoom {
    ghost use Rattle.command_room.specs.Room.{CommandRoomState};
    ghost use Rattle.locked_map.specs.Room.{IsMap};

    ghost Value = { CommandRoomState };

    ghost view = { λ a. a.room };

    ghost invariant = { λ a. IsMap a.room };
}

impl MapRoom {
    /// The room of these cells, with no command under way and none done. Cells that a cut left are the room of what their
    /// restore brings back. It takes no memory.
    pub fn of(alloc: Global, cells: CellBank, settings: Settings, shard: u32) -> MapRoom
        requires cells { MayBeRoom settings shard cells }
        requires shard { shard < settings.shards }
        ensures is { result ≡ new_room settings shard cells }
        ensures room { IsMap result }
    {
        MapRoom {
            room: CommandRoom::of(alloc, cells, settings, shard),
        }
    }

    /// Begins a command of the room's shard, and gives its reply, which is settled now: a put of a new key is refused as
    /// `Full` exactly where the shard has as many keys as the room has lines for nodes. It plans the command's stores and
    /// makes room for all of them and for the entry, before any store. Refused, for want of memory, it may have made some
    /// room; no load, entry or state has changed.
    pub fn begin(&mut self, command: Command) -> Result<Reply, AllocError>
        requires running { IsRunning self.old.cells.state }
        requires idle { self.old.under_way ≡ None }
        requires mine { room_of (sizes_in self.old) command ≡ self.old.room }

        ensures reply { IfOk result (λ reply. reply_to (sizes_in self.old) (contents_in self.old) command ≡ Some reply) }
        ensures ok { IfOk result (λ reply. self.new ≡ begun (commanded self.old command) self.new.cells.bank self.new.history.spare command reply) }
        ensures contents { OnOk result (contents_in self.new ≡ contents_after (sizes_in self.old) (contents_in self.old) command) }

        ensures refused { OnErr result (self.new ≡ refused self.old self.new.plan.spare self.new.cells.bank self.new.history.spare) }
        ensures kept { OnErr result (contents_in self.new ≡ contents_in self.old) }

        ensures same { HasSameCells self.old.cells.bank self.new.cells.bank }
        ensures loads { bank_load self.new.cells.bank ≡ bank_load self.old.cells.bank }
        ensures in_memory { memory_words_of self.new ≡ memory_words_of self.old }
        ensures room { IsMap self.new }
    {
        let mut plan = self.room.take_plan();
        match plan_command(
            LIVE_HEADS,
            self.room.settings(),
            self.room.cells(),
            command,
            &mut plan,
        ) {
            Ok(reply) => {
                self.room.begin_planned(plan, command, reply)?;
                Ok(reply)
            }
            Err(error) => {
                self.room.put_back(plan);
                Err(error)
            }
        }
    }

    /// The pairs of the room, in the order of their keys. While stores are left, and in torn cells, the loads stand for no
    /// map: the call then gives what walks over them meet, of which nothing is promised. The cause of a refusal is want of
    /// memory.
    pub fn entries(&self, alloc: Global) -> Result<Vec<Pair>, AllocError>
        ensures pairs { IsAtRest self.now.cells self.now.plan → IfOk result (λ pairs. pairs.items ≡ listed (contents_in self.now).pairs) }
        ensures room { IsMap self.now }
    {
        listed_pairs(alloc, LIVE_HEADS, self.room.cells())
    }
}

impl RunsCommands for MapRoom {
    ghost state = { λ s. s };

    fn left(&self) -> u32 {
        self.room.left()
    }

    fn step(&mut self) -> bool {
        self.room.step()
    }

    fn note(&mut self, ticket: u64, entry: Entry) {
        self.room.note(ticket, entry);
    }

    fn history(&self) -> &[Noted] {
        self.room.history()
    }
}

impl CellRoom for MapRoom {
    ghost use Rattle.std.specs.Prelude.{◌≡◌, None};
    ghost use Rattle.command_room.specs.Room.{words_of, with_cells};
    ghost use Rattle.locked_map.specs.Room.{IsMap};

    ghost cells = { λ s. s.cells };

    ghost with_cells = { with_cells };

    ghost words = { words_of };

    ghost IsIdle = { λ s. s.under_way ≡ None };

    ghost IsWhole = { IsMap };

    ghost HasCells = { λ s. Unit {0} };

    fn enter(&mut self, epoch: u32) {
        self.room.enter(epoch);
    }

    fn close_begin(&mut self) -> u32 {
        self.room.close_begin()
    }

    fn close_next(&mut self) -> bool {
        self.room.close_next()
    }

    fn close_fence(&mut self) {
        self.room.close_fence();
    }

    fn restore_next(&mut self) -> RestoreStep {
        self.room.restore_next()
    }

    fn is_idle(&self) -> bool {
        self.room.is_idle()
    }

    fn bank(&self) -> &Bank {
        self.room.bank()
    }

    fn load(&self, line: u32, word: u32) -> u64 {
        self.room.load(line, word)
    }

    fn into_bank(self) -> Bank {
        let MapRoom { room } = self;
        room.into_bank()
    }
}
