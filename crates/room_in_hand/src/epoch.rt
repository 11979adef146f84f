//! The events of a closing on the super room.

ghost use Rattle.std.specs.Prelude.{◌≡◌};
ghost use Rattle.room_in_hand.specs.Known.{Knowledge};
ghost use Rattle.room_in_hand.specs.InHand.{writing_epoch, IsInHand, IsHeldAs};
ghost use Rattle.room_in_hand.specs.Events.{epoch_stored, epoch_written, epoch_fenced};

use epoch_word::{EpochStage, SuperRoom};
use rooms::Room;

/// Stores the next epoch.
pub fn store_epoch(room: &mut SuperRoom)
    requires { IsHeldAs (writing_epoch EpochStage.Before) (Room.Super room.old) }
    ensures is { room.new ≡ epoch_stored room.old }
    ensures kept { (k : Knowledge) → IsInHand (writing_epoch EpochStage.Before) k (Room.Super room.old) → IsInHand (writing_epoch EpochStage.Stored) k (Room.Super room.new) }
{
    room.store_next();
}

/// Writes the store of the next epoch back.
pub fn write_epoch_back(room: &mut SuperRoom)
    requires { IsHeldAs (writing_epoch EpochStage.Stored) (Room.Super room.old) }
    ensures is { room.new ≡ epoch_written room.old }
    ensures kept { (k : Knowledge) → IsInHand (writing_epoch EpochStage.Stored) k (Room.Super room.old) → IsInHand (writing_epoch EpochStage.AskedFor) k (Room.Super room.new) }
{
    room.write_back();
}

/// Brings the next epoch into memory.
pub fn fence_epoch(room: &mut SuperRoom)
    requires { IsHeldAs (writing_epoch EpochStage.AskedFor) (Room.Super room.old) }
    ensures is { room.new ≡ epoch_fenced room.old }
    ensures kept { (k : Knowledge) → IsInHand (writing_epoch EpochStage.AskedFor) k (Room.Super room.old) → IsInHand (writing_epoch EpochStage.InMemory) k (Room.Super room.new) }
{
    room.fence();
}
