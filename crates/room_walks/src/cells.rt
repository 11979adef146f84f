//! Cells are read by loads, in whatever state they are.

ghost use Rattle.line_memory.specs.Line.{bank_load};

use crate::reads_words::ReadsWords;
use incll_var::CellBank;

impl ReadsWords for CellBank {
    ghost words = { λ cells. bank_load cells.bank };

    fn read(&self, line: u64, word: u32) -> u64 {
        if line < u64::from(self.lines()) {
            self.load(line as u32, word)
        } else {
            0
        }
    }
}
