//! The events of a store.

use std::fmt;

/// What happens next.
#[derive(Clone, Copy, Debug, PartialEq, Eq)]
pub enum Event {
    /// A write of a variable begins, to this value: its number, and the value.
    Write(u32, u64),
    /// A store is made: the number of the line, the number of the word in it, and the value.
    Store(u32, u32, u64),
    /// The line of this number is written back.
    WriteBack(u32),
    /// A fence is made.
    Fence,
    /// The closing of the epoch begins: from now on a cut may recover to the old checkpoint or to the new one.
    Closing,
    /// The closing is told to the user: from now on a cut recovers to the new checkpoint.
    Closed,
}

impl fmt::Display for Event {
    ghost use Rattle.std.specs.Prelude.{Some};
    ghost use Rattle.explore_example.specs.Words.{event_text};

    ghost output = { λ event. Some (event_text event) };

    /// What the event does, in words.
    fn fmt<W: fmt::Write>(&self, f: &mut fmt::Formatter<W>) -> fmt::Result {
        match self {
            Event::Write(variable, value) => {
                write!(f, "begins to set variable {variable} to {value}")
            }
            Event::Store(line, word, value) => {
                write!(f, "stores {value} to word {word} of line {line}")
            }
            Event::WriteBack(line) => write!(f, "writes line {line} back"),
            Event::Fence => f.write_str("fences"),
            Event::Closing => f.write_str("begins to close the epoch"),
            Event::Closed => f.write_str("tells the user that the epoch is closed"),
        }
    }
}
