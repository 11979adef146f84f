//! Choices: how many of its pending stores each line keeps at a power cut. Lines are numbered through all rooms, from the
//! first line of the first room on.

/// How many pending stores a line keeps.
#[derive(Clone, Copy, Debug, PartialEq, Eq)]
pub struct Kept {
    /// The number of the line, counted through all rooms.
    pub line: u32,
    /// How many of its first pending stores are kept, where so many are pending.
    pub count: u32,
}

/// Which pending stores a power cut keeps.
#[derive(Debug, Drop)]
pub enum Choice {
    /// None.
    Nothing,
    /// All.
    All,
    /// A number of each line's first pending stores, drawn by this seed.
    Seed(u64),
    /// Those that a list names, and none of the lines that it does not name. Of two entries with one line the first counts.
    List(Vec<Kept>),
}
