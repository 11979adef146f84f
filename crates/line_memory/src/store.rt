//! A store to a word of a line. It says which word and which value; on which line it is pending is known by where it
//! stands.

/// How many words a line has.
pub const WORDS: u32 = 8;

/// A store that is pending on a line.
#[derive(Clone, Copy, Debug, PartialEq, Eq)]
pub struct Store {
    /// The number of the word, from 0 to 7.
    pub word: u32,
    pub value: u64,
}
