//! The events of the epoch write in a list of rooms whose last is the super room.

ghost use Rattle.std.specs.Prelude.{◌≡◌, ◌<◌, length};
ghost use Rattle.rooms.specs.Rooms.{IsWhole};
ghost use Rattle.recovery.specs.Recovering.{next_stored, written_back, in_memory, MayStore, with_last, last_of};

use rooms::Room;

/// Makes the store of the next epoch pending. Rooms of cells stay as they are.
fn store_next_in(room: &mut Room)
    requires may { MayStore room.old }
    ensures is { room.new ≡ next_stored room.old }
    ensures whole { IsWhole room.new }
{
    match room {
        Room::Super(epoch) => epoch.store_next(),
        _ => {}
    }
}

/// Writes the next epoch back. Rooms of cells stay as they are.
fn write_back_in(room: &mut Room)
    requires { IsWhole room.old }
    ensures is { room.new ≡ written_back room.old }
    ensures whole { IsWhole room.new }
{
    match room {
        Room::Super(epoch) => epoch.write_back(),
        _ => {}
    }
}

/// Brings the next epoch into memory. Rooms of cells stay as they are.
fn fence_in(room: &mut Room)
    requires { IsWhole room.old }
    ensures is { room.new ≡ in_memory room.old }
    ensures whole { IsWhole room.new }
{
    match room {
        Room::Super(epoch) => epoch.fence(),
        _ => {}
    }
}

/// Makes the store of the next epoch pending in the last of these rooms.
pub(crate) fn store_next(rooms: &mut Vec<Room>)
    requires some { 0 < length rooms.old.items }
    requires may { MayStore (last_of rooms.old.items) }
    ensures is { rooms.new.items ≡ with_last next_stored rooms.old.items }
    ensures whole { IsWhole (next_stored (last_of rooms.old.items)) }
{
    let last = rooms.len() - 1;
    store_next_in(&mut rooms[last]);
}

/// Writes the next epoch back in the last of these rooms.
pub(crate) fn write_back(rooms: &mut Vec<Room>)
    requires some { 0 < length rooms.old.items }
    requires whole { IsWhole (last_of rooms.old.items) }
    ensures is { rooms.new.items ≡ with_last written_back rooms.old.items }
    ensures whole { IsWhole (written_back (last_of rooms.old.items)) }
{
    let last = rooms.len() - 1;
    write_back_in(&mut rooms[last]);
}

/// Brings the next epoch into memory in the last of these rooms.
pub(crate) fn fence(rooms: &mut Vec<Room>)
    requires some { 0 < length rooms.old.items }
    requires whole { IsWhole (last_of rooms.old.items) }
    ensures is { rooms.new.items ≡ with_last in_memory rooms.old.items }
    ensures whole { IsWhole (in_memory (last_of rooms.old.items)) }
{
    let last = rooms.len() - 1;
    fence_in(&mut rooms[last]);
}
