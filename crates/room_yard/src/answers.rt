//! What the calls of a handle answer where they did not do their step, or what they found.

/// A thread may not leave or claim now. The arrival word that a load found forbids it, and then `met` is `found`; or that
/// word allows it, and the exchange met another one, `met`.
#[derive(Clone, Copy, Debug, PartialEq, Eq)]
pub struct Rest {
    /// The arrival word that the load found.
    pub found: u64,
    /// The arrival word of the last look.
    pub met: u64,
}

/// A room's lock is taken.
#[derive(Clone, Copy, Debug, PartialEq, Eq)]
pub struct Held {
    /// The lock word that was found, not 0: thread i holds the room where it is i + 1, and the room was given back in
    /// mid-work where it is 2^64 - 1.
    pub by: u64,
}

/// A thread that would stand holds a room.
#[derive(Clone, Copy, Debug, PartialEq, Eq)]
pub struct HoldsLock {
    /// The room's number.
    pub room: u32,
}
