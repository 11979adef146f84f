//! The calls that every room that carries out commands has, behind the begin of a command.

ghost use Rattle.std.specs.Prelude.{◌≡◌, ◌<◌, [], Some, length, IsTrue, ◌↔◌};
ghost use Rattle.command_room.specs.Room.{CommandRoomState, contents_in, memory_words_of, stepped, noted};

use planned_cells::CellRoom;
use seq_object::{Entry, Noted};

/// A room of cells that carries out one command at a time. How a command begins is each kind's own; from there on the calls
/// are the same. No call takes memory.
pub trait RunsCommands: CellRoom {
    /// The room as a command room.
    ghost state: { Self → CommandRoomState };

    /// How many stores of the command under way are left.
    fn left(&self) -> u32
        ensures left { result ≡ length (state self.now).plan.stores }
        ensures whole { Self.IsWhole self.now };

    /// Makes the next store of the command under way, and says whether stores are left.
    fn step(&mut self) -> bool
        requires left { 0 < length (state self.old).plan.stores }
        ensures is { state self.new ≡ stepped (state self.old) }
        ensures more { IsTrue result ↔ (0 < length (state self.new).plan.stores) }
        ensures contents { contents_in (state self.new) ≡ contents_in (state self.old) }
        ensures in_memory { memory_words_of (state self.new) ≡ memory_words_of (state self.old) }
        ensures whole { Self.IsWhole self.new };

    /// Ends the command under way with its entry, which has its command and reply and this place in the history of the life.
    fn note(&mut self, ticket: u64, entry: Entry)
        requires left { (state self.old).plan.stores ≡ [] }
        requires under { (state self.old).under_way ≡ Some (record { command = entry.command; reply = entry.reply }) }
        ensures is { state self.new ≡ noted (state self.old) ticket entry }
        ensures contents { contents_in (state self.new) ≡ contents_in (state self.old) }
        ensures whole { Self.IsWhole self.new };

    /// The entries of the commands that are done, in order.
    fn history(&self) -> &[Noted]
        ensures entries { result.now ≡ (state self.now).history.entries }
        ensures whole { Self.IsWhole self.now };
}
