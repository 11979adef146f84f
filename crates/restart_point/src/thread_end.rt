//! The end of a thread's work in an epoch: why it stands. It is told with each position that is written.

/// Whether a thread has something to do.
#[derive(Clone, Copy, Debug, PartialEq, Eq)]
pub enum ThreadEnd {
    /// It has a command to do.
    Ready,
    /// Its next command takes an item, and it found the queue empty.
    Waits,
    /// All commands of its script are done.
    Ended,
}
