//! The events of the restores, room by room.

ghost use Rattle.std.specs.Prelude.{◌≡◌, ◌<◌, ℕ, length};
ghost use Rattle.recovery.specs.Restored.{has_left, restored, IsRestoredFrom, MayGoOn, room_at, restored_on, any_left};

use incll_var::RestoreStep;
use rooms::{CellRoom, Room};

/// Does the next event of a room's restore, and says whether there was one. Where there was none its cells are saved.
fn restore_room(room: &mut Room) -> bool
    requires { MayGoOn room.old }
    ensures was { result ≡ has_left room.old }
    ensures is { room.new ≡ restored room.old }
    ensures kept { IsRestoredFrom room.old room.new }
{
    room.restore_next() != RestoreStep::Finished
}

/// Does the next event of the restores of these rooms, and says whether there was one. The rooms before it are saved.
fn restore_first(rooms: &mut [Room]) -> bool
    requires { (k : ℕ) → k < length rooms.old → MayGoOn (room_at rooms.old k) }
    ensures was { result ≡ any_left rooms.old }
    ensures is { rooms.new ≡ restored_on rooms.old }
    ensures kept { (k : ℕ) → k < length rooms.old → IsRestoredFrom (room_at rooms.old k) (room_at rooms.new k) }
{
    for room in rooms.iter_mut() {
        if restore_room(room) {
            return true;
        }
    }
    false
}

/// The same, of the rooms of a vector.
pub(crate) fn restore_next(rooms: &mut Vec<Room>) -> bool
    requires { (k : ℕ) → k < length rooms.old.items → MayGoOn (room_at rooms.old.items k) }
    ensures was { result ≡ any_left rooms.old.items }
    ensures is { rooms.new.items ≡ restored_on rooms.old.items }
    ensures kept { (k : ℕ) → k < length rooms.old.items → IsRestoredFrom (room_at rooms.old.items k) (room_at rooms.new.items k) }
{
    restore_first(rooms.as_mut_slice())
}
