//! The three verdicts. A verdict speaks of all threads of a life together.

/// What the ends of all threads say of the life.
#[derive(Clone, Copy, Debug, PartialEq, Eq)]
pub enum Verdict {
    /// Some thread may leave.
    Goes,
    /// All scripts are used.
    Finished,
    /// No thread may leave, and some thread waits for an item.
    Stalled,
}
