//! The events of a closing on the room in hand, each of which leaves what is in hand then.

ghost use Rattle.std.specs.Prelude.{◌≡◌, ◌+◌};
ghost use Rattle.rooms.specs.Rooms.{HasCells, lines_unasked};
ghost use Rattle.room_in_hand.specs.Known.{Knowledge};
ghost use Rattle.room_in_hand.specs.InHand.{resting, flushing, flushed, shut, writing_epoch, IsInHand, IsHeldAs};
ghost use Rattle.room_in_hand.specs.Events.{begun, begun_use, written, written_use, fenced, has_lines, epoch_stored, epoch_written, epoch_fenced};
ghost use Rattle.coordinator.specs.Steps.{begun_hand, taken_hand, written_hand};

use crate::hand::Hand;
use epoch_word::{EpochStage, SuperRoom};
use room_in_hand::{
    begin_closing, fence_epoch, fence_room, store_epoch, write_epoch_back, write_line_back,
};
use rooms::Room;

/// The room that was locked: of a room of cells the closing begins.
pub fn take(room: Room) -> Hand
    requires { HasCells room → IsHeldAs resting room }
    ensures is { result ≡ taken_hand room }
    ensures kept { HasCells room → (k : Knowledge) → IsInHand resting k room → IsInHand (begun_use (has_lines room)) k (begun room) }
{
    match room {
        Room::Map(map) => begin(Room::Map(map)),
        Room::Queue(queue) => begin(Room::Queue(queue)),
        Room::Thread(thread) => begin(Room::Thread(thread)),
        Room::Super(super_room) => Hand::Epoch(EpochStage::Before, super_room),
    }
}

/// Ends the stores of the epoch in a room of cells.
fn begin(room: Room) -> Hand
    requires { IsHeldAs resting room }
    ensures is { result ≡ begun_hand (has_lines room) (begun room) }
    ensures kept { (k : Knowledge) → IsInHand resting k room → IsInHand (begun_use (has_lines room)) k (begun room) }
{
    let mut room = room;
    if begin_closing(&mut room) {
        Hand::Flushing(room)
    } else {
        Hand::Shut(room)
    }
}

/// Writes a line back.
pub fn write_back(room: Room) -> Hand
    requires { IsHeldAs flushing room }
    ensures is { result ≡ written_hand (has_lines (written room)) (written room) }
    ensures fewer { lines_unasked room ≡ lines_unasked (written room) + 1 }
    ensures kept { (k : Knowledge) → IsInHand flushing k room → IsInHand (written_use (has_lines (written room))) k (written room) }
{
    let mut room = room;
    if write_line_back(&mut room) {
        Hand::Flushing(room)
    } else {
        Hand::Flushed(room)
    }
}

/// Brings into memory what was written back.
pub fn bring_in(room: Room) -> Hand
    requires { IsHeldAs flushed room }
    ensures is { result ≡ Hand.Shut (fenced room) }
    ensures kept { (k : Knowledge) → IsInHand flushed k room → IsInHand shut k (fenced room) }
{
    let mut room = room;
    fence_room(&mut room);
    Hand::Shut(room)
}

/// Stores the next epoch.
pub fn store(room: SuperRoom) -> Hand
    requires { IsHeldAs (writing_epoch EpochStage.Before) (Room.Super room) }
    ensures is { result ≡ Hand.Epoch EpochStage.Stored (epoch_stored room) }
    ensures kept { (k : Knowledge) → IsInHand (writing_epoch EpochStage.Before) k (Room.Super room) → IsInHand (writing_epoch EpochStage.Stored) k (Room.Super (epoch_stored room)) }
{
    let mut room = room;
    store_epoch(&mut room);
    Hand::Epoch(EpochStage::Stored, room)
}

/// Writes the next epoch back.
pub fn ask(room: SuperRoom) -> Hand
    requires { IsHeldAs (writing_epoch EpochStage.Stored) (Room.Super room) }
    ensures is { result ≡ Hand.Epoch EpochStage.AskedFor (epoch_written room) }
    ensures kept { (k : Knowledge) → IsInHand (writing_epoch EpochStage.Stored) k (Room.Super room) → IsInHand (writing_epoch EpochStage.AskedFor) k (Room.Super (epoch_written room)) }
{
    let mut room = room;
    write_epoch_back(&mut room);
    Hand::Epoch(EpochStage::AskedFor, room)
}

/// Brings the next epoch into memory.
pub fn fence(room: SuperRoom) -> Hand
    requires { IsHeldAs (writing_epoch EpochStage.AskedFor) (Room.Super room) }
    ensures is { result ≡ Hand.Epoch EpochStage.InMemory (epoch_fenced room) }
    ensures kept { (k : Knowledge) → IsInHand (writing_epoch EpochStage.AskedFor) k (Room.Super room) → IsInHand (writing_epoch EpochStage.InMemory) k (Room.Super (epoch_fenced room)) }
{
    let mut room = room;
    fence_epoch(&mut room);
    Hand::Epoch(EpochStage::InMemory, room)
}
