//! The first lines of a room, and what may be wrong with a room.

/// The header of a room.
#[derive(Clone, Copy)]
pub(crate) struct Header {
    /// The first free line, or 0.
    pub free: u64,
    /// The first line that was never given out.
    pub fresh: u64,
    /// How many pairs or items the room has.
    pub count: u64,
}

/// What is wrong with a room. A check answers the first in the order of the room's kind.
#[derive(Clone, Copy)]
pub(crate) enum RoomFault {
    /// The header's numbers are out of range.
    BadHeader,
    /// A chain leads astray.
    BadChain,
    /// The last line of the queue is not the one that is named.
    BadEnds,
    /// The free lines lead astray.
    BadFreeList,
    /// The lines are not all there, or miscounted.
    BadCount,
}
