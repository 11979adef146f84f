//! The events of a thread that runs on a room of commands: a command begins, its stores are made, and its entry is noted.

ghost use Rattle.std.specs.Prelude.{◌≡◌, ◌+◌, ◌<◌, Some, IfOk, OnErr};
ghost use Rattle.seq_object.specs.Sizes.{sizes_of};
ghost use Rattle.seq_object.specs.Object.{room_of, reply_to};
ghost use Rattle.seq_object.specs.declared.history.Noted.{Noted as TheNoted};
ghost use Rattle.seq_object.specs.declared.history.RestartPoint.{RestartPoint as ThePoint};
ghost use Rattle.command_room.specs.declared.under_way.UnderWay.{UnderWay as TheUnderWay};
ghost use Rattle.restart_point.specs.declared.thread_end.ThreadEnd.{ThreadEnd as TheEnd};
ghost use Rattle.room_in_hand.specs.Known.{Knowledge, with_noted};
ghost use Rattle.room_in_hand.specs.InHand.{resting, working, writing_point, IsInHand};
ghost use Rattle.room_in_hand.specs.Working.{MayBeginIn, HasBegun, begun_command_use, stores_left as left_in, stored, MayStore, under_way_in, entry_noted};

use command_room::RunsCommands as _;
use rooms::{CellRoom as _, Room};
use seq_object::{Command, Entry, Reply};
use std::alloc::AllocError;

/// Enters the epoch in a room that rests, and begins one of its commands, with the object's reply. Without a reply, which comes
/// exactly at a take of the empty queue, no command is under way and the room rests. Refused, for want of memory, it rests too; it
/// may be entered.
pub fn begin_command(
    room: &mut Room,
    epoch: u32,
    command: Command,
) -> Result<Option<Reply>, AllocError>
    requires { MayBeginIn epoch command room.old }
    ensures begun { IfOk result (λ reply. HasBegun epoch command reply room.old room.new) }
    ensures reply { IfOk result (λ reply. (k : Knowledge) → room_of (sizes_of k.settings) command ≡ k.room → IsInHand resting k room.old → reply ≡ reply_to (sizes_of k.settings) k.now command) }
    ensures kept { IfOk result (λ reply. (k : Knowledge) → k.epoch ≡ epoch → room_of (sizes_of k.settings) command ≡ k.room → IsInHand resting k room.old → IsInHand (begun_command_use command reply) k room.new) }
    ensures refused { OnErr result ((k : Knowledge) → k.epoch ≡ epoch → IsInHand resting k room.old → IsInHand resting k room.new) }
{
    match room {
        Room::Map(map) => {
            map.enter(epoch);
            let reply = map.begin(command)?;
            Ok(Some(reply))
        }
        Room::Queue(queue) => {
            queue.enter(epoch);
            queue.begin(command)
        }
        Room::Thread(_) | Room::Super(_) => unreachable!(),
    }
}

/// How many stores are left, of a command or of a restart point.
pub fn stores_left(room: &Room) -> u32
    ensures { result ≡ left_in room.now }
{
    match room {
        Room::Map(map) => map.left(),
        Room::Queue(queue) => queue.left(),
        Room::Thread(thread) => thread.left(),
        Room::Super(_) => 0,
    }
}

/// Makes the first store that is left, of a command or of a restart point.
pub fn make_store(room: &mut Room)
    requires may { MayStore room.old }
    requires left { 0 < left_in room.old }
    ensures is { room.new ≡ stored room.old }
    ensures fewer { left_in room.old ≡ left_in room.new + 1 }
    ensures kept { (k : Knowledge) (under : TheUnderWay) → IsInHand (working under) k room.old → IsInHand (working under) k room.new }
    ensures point_kept { (k : Knowledge) (point : ThePoint) (end : TheEnd) → IsInHand (writing_point point end) k room.old → IsInHand (writing_point point end) k room.new }
{
    match room {
        Room::Map(map) => {
            map.step();
        }
        Room::Queue(queue) => {
            queue.step();
        }
        Room::Thread(thread) => {
            thread.step();
        }
        Room::Super(_) => unreachable!(),
    }
}

/// Ends the command under way, all of whose stores are made, with its entry and the entry's place in the history.
pub fn note_entry(room: &mut Room, ticket: u64, entry: Entry)
    requires under { under_way_in room.old ≡ Some (record { command = entry.command; reply = entry.reply }) }
    requires left { left_in room.old ≡ 0 }
    ensures is { room.new ≡ entry_noted room.old ticket entry }
    ensures kept { (k : Knowledge) → IsInHand (working (record { command = entry.command; reply = entry.reply })) k room.old → IsInHand resting (with_noted k (record { ticket = ticket; entry = entry })) room.new }
{
    match room {
        Room::Map(map) => map.note(ticket, entry),
        Room::Queue(queue) => queue.note(ticket, entry),
        Room::Thread(_) | Room::Super(_) => unreachable!(),
    }
}
