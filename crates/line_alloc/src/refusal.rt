//! Why no line was taken. A caller must know which it was: a full room is an answer of the room, and want of memory is not.

/// Why no line was taken.
#[derive(Clone, Copy, Debug, PartialEq, Eq)]
pub enum TakeRefusal {
    /// No line is free, and each line was given out.
    Full,
    /// The plan wanted memory.
    OutOfMemory,
}
