//! A walk along a chain of lines.

ghost use Rattle.std.specs.Prelude.{◌≡◌, ◌<◌};
ghost use Rattle.room_walks.specs.Walking.{next_line, behind_next};

use crate::reads_words::ReadsWords;

/// Where a walk along a chain stands.
#[derive(Clone, Copy, Debug, PartialEq, Eq)]
pub struct Walk {
    /// The line that is met next; at 0 the chain has ended.
    pub line: u64,
    /// The record word, from 0 to 2, of each line that names the line behind it.
    pub word: u32,
    /// How many more lines may be met.
    pub left: u32,
}

impl Walk {
    /// The walk from a line on by this word of each line, which meets at most so many lines.
    pub fn from(start: u64, word: u32, most: u32) -> Walk
        ensures { result ≡ record { line = start; word = word; left = most } }
    {
        Walk {
            line: start,
            word,
            left: most,
        }
    }

    /// The next line; the walk stands behind it then. There is none where the chain has ended, and where as many lines were met
    /// as may be; the walk stays then.
    pub fn next<R: ReadsWords>(&mut self, room: &R) -> Option<u64>
        requires { self.old.word < 3 }
        ensures line { result ≡ next_line self.old }
        ensures behind { self.new ≡ behind_next (R.words room.now) self.old }
    {
        if self.line == 0 || self.left == 0 {
            return None;
        }
        let line = self.line;
        self.line = room.read(line, self.word);
        self.left -= 1;
        Some(line)
    }
}
