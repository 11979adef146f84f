//! What a recovery leaves at its end: the threads' ends, and what the arrival word shows.

ghost use Rattle.std.specs.Prelude.{◌≡◌, ◌<◌, ◌≤◌, ◌+◌, ◌-◌, ◌^◌, ℕ, length, not};
ghost use Rattle.room_model.specs.EpochLine.{loaded_epoch};
ghost use Rattle.rooms.specs.Rooms.{bank_of, is_empty_queue, IsWhole};
ghost use Rattle.recovery.specs.Restored.{room_at};
ghost use Rattle.recovery.specs.Recovering.{last_of};
ghost use Rattle.recovery.specs.Ends.{MayBeTold, is_at_end, told, AreTold, are_at_end};

use restart_point::ThreadEnd;
use rooms::{CellRoom, Room};

/// Tells a thread's room its end, where so many commands are in the thread's script, and says whether it is at the script's
/// end. Other rooms stay as they are.
fn tell_end(room: &mut Room, commands: u64) -> bool
    requires { MayBeTold room.old }
    ensures at_end { result ≡ is_at_end commands room.old }
    ensures is { room.new ≡ told commands room.old }
    ensures whole { IsWhole room.new }
{
    match room {
        Room::Thread(thread) => {
            let at_end = commands <= thread.position();
            thread.set_end(if at_end {
                ThreadEnd::Ended
            } else {
                ThreadEnd::Ready
            });
            at_end
        }
        _ => true,
    }
}

/// Tells the threads' rooms, which come behind the queue room, their ends, by the lengths of their scripts, and says whether
/// all of them are at their scripts' ends.
pub(crate) fn tell_ends(rooms: &mut Vec<Room>, shards: u32, lengths: &[u32]) -> bool
    requires shards { shards < 2 ^ 16 }
    requires threads { length lengths.now < 2 ^ 16 }
    requires within { shards + 1 + length lengths.now ≤ length rooms.old.items }
    requires rooms { (k : ℕ) → k < length rooms.old.items → MayBeTold (room_at rooms.old.items k) }
    ensures at_end { result ≡ are_at_end shards lengths.now rooms.old.items (length lengths.now) }
    ensures told { AreTold shards lengths.now (length lengths.now) rooms.old.items rooms.new.items }
{
    let first = shards as usize + 1;
    let mut over = true;
    for thread in 0..lengths.len() {
        over = tell_end(&mut rooms[first + thread], u64::from(lengths[thread])) && over;
    }
    over
}

/// Whether this room, the queue room, has an item, by loads.
pub(crate) fn has_item(room: &Room) -> bool
    requires { 1 < length (bank_of room.now).lines }
    ensures { result ≡ not (is_empty_queue room.now) }
{
    room.load(1, 0) != 0
}

/// The memory epoch by load, of rooms whose last is the super room.
pub(crate) fn epoch_in(rooms: &[Room]) -> u32
    requires some { 0 < length rooms.now }
    requires line { 0 < length (bank_of (last_of rooms.now)).lines }
    requires fits { loaded_epoch (bank_of (last_of rooms.now)) < 2 ^ 32 }
    ensures { result ≡ loaded_epoch (bank_of (last_of rooms.now)) }
{
    rooms[rooms.len() - 1].load(0, 0) as u32
}
