//! The events of a closing on a room of cells, of whatever kind.

ghost use Rattle.std.specs.Prelude.{◌≡◌, ◌+◌};
ghost use Rattle.rooms.specs.Rooms.{lines_unasked};
ghost use Rattle.room_in_hand.specs.Known.{Knowledge};
ghost use Rattle.room_in_hand.specs.InHand.{resting, flushing, flushed, shut, IsInHand, IsHeldAs};
ghost use Rattle.room_in_hand.specs.Events.{begun, begun_use, written, written_use, fenced, has_lines};
ghost use Rattle.room_in_hand.specs.Laws.{IsOfItsType};

use rooms::{CellRoom, Room};

/// What is known of a room by its type alone.
pub fn of_its_type(room: &Room)
    ensures { IsOfItsType room.now }
{
    let _count = room.bank().write_backs();
}

/// Ends the stores of the epoch in a room that rests, and says whether a line is left to be written back. Where none is, the
/// room is in memory.
pub fn begin_closing(room: &mut Room) -> bool
    requires { IsHeldAs resting room.old }
    ensures is { room.new ≡ begun room.old }
    ensures listed { result ≡ has_lines room.old }
    ensures kept { (k : Knowledge) → IsInHand resting k room.old → IsInHand (begun_use result) k room.new }
{
    room.close_begin() > 0
}

/// Writes back the line whose first store came first, and says whether another is left.
pub fn write_line_back(room: &mut Room) -> bool
    requires { IsHeldAs flushing room.old }
    ensures is { room.new ≡ written room.old }
    ensures more { result ≡ has_lines room.new }
    ensures fewer { lines_unasked room.old ≡ lines_unasked room.new + 1 }
    ensures kept { (k : Knowledge) → IsInHand flushing k room.old → IsInHand (written_use result) k room.new }
{
    room.close_next()
}

/// Brings all that was written back into memory.
pub fn fence_room(room: &mut Room)
    requires { IsHeldAs flushed room.old }
    ensures is { room.new ≡ fenced room.old }
    ensures kept { (k : Knowledge) → IsInHand flushed k room.old → IsInHand shut k room.new }
{
    room.close_fence();
}
