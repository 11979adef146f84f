//! What a walk asks of a room.

ghost use Rattle.std.specs.Prelude.{◌≡◌, ◌<◌};
ghost use Rattle.room_model.specs.Chains.{RoomWords};

/// A room whose record words can be read.
pub trait ReadsWords {
    /// The words of the room.
    ghost words: { Self → RoomWords };

    /// A word of a line's record, from 0 to 2. A line that is none of the room's reads as zeros.
    fn read(&self, line: u64, word: u32) -> u64
        requires { word < 3 }
        ensures { result ≡ words self.now line word };
}
