//! Changes of a room: writes of record words, and the stores that carry them out.

/// A write: a new value for a word of a line's record.
#[derive(Clone, Copy, Debug, PartialEq, Eq)]
pub struct Write {
    /// The number of the line in its room, from 0.
    pub line: u32,
    /// The number of the record word, from 0 to 2.
    pub word: u32,
    /// The value that the word gets.
    pub value: u64,
}

/// A store that is planned: a new value for a word of a line.
#[derive(Clone, Copy, Debug, PartialEq, Eq)]
pub struct PlannedStore {
    /// The number of the line in its room, from 0.
    pub line: u32,
    /// The number of the word, from 0 to 7.
    pub word: u32,
    /// The value that the word gets.
    pub value: u64,
}
