//! The begin of the write of a restart point in a thread's room.

ghost use Rattle.std.specs.Prelude.{◌≡◌};
ghost use Rattle.room_in_hand.specs.Known.{Knowledge};
ghost use Rattle.room_in_hand.specs.InHand.{resting, writing_point, IsInHand};
ghost use Rattle.room_in_hand.specs.Working.{MayBeginPoint, point_planned, stores_left};

use restart_point::ThreadEnd;
use rooms::{CellRoom as _, Room};

/// Enters the epoch in a thread's room that rests and was not entered in it, and begins the write of its position, with this end. Five
/// stores are left then.
pub fn begin_point(room: &mut Room, epoch: u32, position: u64, end: ThreadEnd)
    requires { MayBeginPoint epoch room.old }
    ensures is { room.new ≡ point_planned epoch position end room.old }
    ensures five { stores_left room.new ≡ 5 }
    ensures kept { (k : Knowledge) → k.epoch ≡ epoch → IsInHand resting k room.old → IsInHand (writing_point (record { position = position }) end) k room.new }
{
    match room {
        Room::Thread(thread) => {
            thread.enter(epoch);
            thread.begin(position, end);
        }
        Room::Map(_) | Room::Queue(_) | Room::Super(_) => unreachable!(),
    }
}
