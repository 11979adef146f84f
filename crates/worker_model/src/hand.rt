//! What a worker has in hand, and what a turn of it answers.

use coordinator::Closer;
use room_yard::{Held, Rest};
use rooms::Room;
use seq_object::Reply;

/// What a worker has in hand. The variant says what its next event is.
#[derive(Drop)]
pub enum Hand {
    /// No room.
    Empty,
    /// The room of its next command, which is under way with this reply: stores are left, or its entry is drawn next.
    Commands(Reply, Room),
    /// A room whose command's entry is drawn and noted. It goes home.
    Drawn(Room),
    /// The queue room, which a take found empty. It goes home.
    NoItem(Room),
    /// Its own room, to which its restart point is written: stores are left, or it goes home.
    Own(Room),
    /// It closes the epoch.
    Closes(Closer),
    /// A room for whose command there was no memory. The power is off, and it is given up.
    Refused(Room),
}

/// What a turn of a worker came to.
#[derive(Clone, Copy, Debug, PartialEq, Eq)]
pub enum Turn {
    /// One event was done.
    Did,
    /// Nothing was done: the thread stands, and may neither leave nor close the epoch by the arrival words that were found.
    Rested(Rest),
    /// Nothing was done: the lock of the room that is wanted is another thread's.
    Waited(Held),
    /// Nothing was done, and nothing is left to do: an arrival word that was found shows that the life is over, or the thread had seen
    /// the power off. A room that it held is given up.
    Over,
}
