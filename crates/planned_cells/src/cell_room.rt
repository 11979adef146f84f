//! The calls that every room of cells has.

ghost use Rattle.std.specs.Prelude.{◌≡◌, ◌<◌, ◌+◌, ◌↔◌, length, count_by, IsTrue};
ghost use Rattle.line_memory.specs.Line.{bank_load, bank_written_back, is_pending, unasked};
ghost use Rattle.room_model.specs.Banks.{memory_words};
ghost use Rattle.room_model.specs.Chains.{RoomWords, HasSameRecords, HasSameRoom};
ghost use Rattle.incll_var.specs.Restore.{next_step};
ghost use Rattle.incll_var.specs.Cells.{CellBankState, IsClosing, IsSaved, MayEnter, MayClose, MayRestore, WritesOneBack, next_in, with_state, closing_state, after_next};
ghost use Rattle.planned_cells.specs.Planned.{memory_words_in, saved_cells, with_bank};

use incll_var::{CellState, RestoreStep};
use line_memory::Bank;

/// A room of cells. No call takes memory.
pub trait CellRoom {
    /// The cells of the room.
    ghost cells: { Self → CellBankState };

    /// The room with other cells in the place of its own.
    ghost with_cells: { Self → CellBankState → Self };

    /// The words that the room means: behind the stores that are left, and of torn cells what their restore brings back.
    ghost words: { Self → RoomWords };

    /// No command and no write is under way in the room.
    ghost IsIdle: { Self → Type 0 };

    /// What the room's own type keeps of it.
    ghost IsWhole: { Self → Type 0 };

    /// The room has cells. The super room alone has none.
    ghost HasCells: { Self → Type 0 };

    /// Lets the cells be written to in this epoch: a later one than was saved, or the one that runs. When a later one begins,
    /// what memory holds of the room at that epoch is what loads give.
    fn enter(&mut self, epoch: u32)
        requires cells { HasCells self.old }
        requires may { MayEnter (cells self.old).state epoch }
        ensures is { self.new ≡ with_cells self.old (with_state (cells self.old) (CellState.Running epoch)) }
        ensures begins { IsSaved (cells self.old).state → HasSameRecords (memory_words epoch (cells self.old).bank) (bank_load (cells self.old).bank) }
        ensures lines { length (cells self.new).bank.lines ≡ length (cells self.old).bank.lines }
        ensures words { HasSameRecords (words self.new) (words self.old) }
        ensures whole { IsWhole self.new };

    /// Ends the stores of the epoch, and says how many lines were stored to in it. Where none was, the cells are saved.
    fn close_begin(&mut self) -> u32
        requires cells { HasCells self.old }
        requires idle { IsIdle self.old }
        requires may { MayClose (cells self.old).state }
        ensures count { result ≡ count_by is_pending (cells self.old).bank.lines }
        ensures unasked { unasked (cells self.old).bank.lines ≡ result }
        ensures is { self.new ≡ with_cells self.old (with_state (cells self.old) (closing_state result (cells self.old).state)) }
        ensures lines { length (cells self.new).bank.lines ≡ length (cells self.old).bank.lines }
        ensures words { HasSameRecords (words self.new) (words self.old) }
        ensures in_memory { memory_words_in (cells self.new) ≡ memory_words_in (cells self.old) }
        ensures whole { IsWhole self.new };

    /// Of the lines that were stored to in the epoch and are not yet written back, it writes back the one whose first store
    /// came first, and says whether another is left.
    fn close_next(&mut self) -> bool
        requires closing { IsClosing (cells self.old).state }
        requires left { 0 < unasked (cells self.old).bank.lines }
        ensures line { WritesOneBack (cells self.old).bank (cells self.new).bank }
        ensures first { (cells self.new).bank ≡ bank_written_back (cells self.old).bank (next_in (cells self.old)) }
        ensures is { self.new ≡ with_cells self.old (with_bank (cells self.old) (cells self.new).bank) }
        ensures fewer { unasked (cells self.old).bank.lines ≡ unasked (cells self.new).bank.lines + 1 }
        ensures more { IsTrue result ↔ (0 < unasked (cells self.new).bank.lines) }
        ensures lines { length (cells self.new).bank.lines ≡ length (cells self.old).bank.lines }
        ensures words { HasSameRecords (words self.new) (words self.old) }
        ensures in_memory { memory_words_in (cells self.new) ≡ memory_words_in (cells self.old) }
        ensures whole { IsWhole self.new };

    /// Moves all that is pending into memory: the cells are saved, with the loads that they had.
    fn close_fence(&mut self)
        requires closing { IsClosing (cells self.old).state }
        requires asked { unasked (cells self.old).bank.lines ≡ 0 }
        ensures is { self.new ≡ with_cells self.old (saved_cells (cells self.old)) }
        ensures loads { HasSameRoom (bank_load (cells self.new).bank) (bank_load (cells self.old).bank) }
        ensures lines { length (cells self.new).bank.lines ≡ length (cells self.old).bank.lines }
        ensures words { HasSameRecords (words self.new) (words self.old) }
        ensures in_memory { memory_words_in (cells self.new) ≡ memory_words_in (cells self.old) }
        ensures whole { IsWhole self.new };

    /// Does the next event of the restore; where none is left the cells are saved, and their loads are what the words meant.
    /// On cells that are saved it does nothing, nor on the super room. Behind the call the restore may go on.
    fn restore_next(&mut self) -> RestoreStep
        requires may { MayRestore (cells self.old).state }
        ensures step { result ≡ next_step (cells self.old).todo }
        ensures is { self.new ≡ with_cells self.old (after_next (cells self.old)) }
        ensures goes_on { MayRestore (cells self.new).state }
        ensures lines { length (cells self.new).bank.lines ≡ length (cells self.old).bank.lines }
        ensures words { HasSameRecords (words self.new) (words self.old) }
        ensures in_memory { memory_words_in (cells self.new) ≡ memory_words_in (cells self.old) }
        ensures whole { IsWhole self.new };

    /// Whether no command and no write is under way.
    fn is_idle(&self) -> bool
        ensures idle { IsTrue result ↔ IsIdle self.now }
        ensures whole { IsWhole self.now };

    /// The bank under the room.
    fn bank(&self) -> &Bank
        ensures bank { result.now ≡ (cells self.now).bank }
        ensures whole { IsWhole self.now };

    /// The load of a word, from 0 to 7, of a line.
    fn load(&self, line: u32, word: u32) -> u64
        requires line { line < length (cells self.now).bank.lines }
        requires word { word < 8 }
        ensures load { result ≡ bank_load (cells self.now).bank line word }
        ensures whole { IsWhole self.now };

    /// The bank under the room, in any state. A command or write under way is given up where it stands, and entries too.
    fn into_bank(self) -> Bank
        ensures bank { result ≡ (cells self).bank }
        ensures whole { IsWhole self };
}
