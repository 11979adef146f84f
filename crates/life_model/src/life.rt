//! The two kinds of life, the ends of a life, and what an epoch write covers.

/// Whether a life formats its memory or goes on from an image.
#[derive(Clone, Copy, Debug, PartialEq, Eq)]
pub enum Life {
    Start,
    Resume,
}

/// How a life ended.
#[derive(Clone, Copy, Debug, PartialEq, Eq)]
pub enum Outcome {
    /// All scripts are used, and all entries covered.
    Finished,
    /// Each thread is at its script's end or before a take of the empty queue, and all entries are covered.
    Stalled,
    /// The power was cut before the life was finished.
    Cut,
    /// Memory ran out.
    Starved,
}

/// An acknowledged epoch write: the epoch, and how many entries of the life it covers.
#[derive(Clone, Copy, Debug, PartialEq, Eq)]
pub struct Mark {
    pub epoch: u32,
    pub length: u64,
}
