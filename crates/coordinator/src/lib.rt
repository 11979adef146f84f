//! Closing an epoch, over any handle on a yard: the rooms in the order of their numbers, one event at each step.
//!
//! A closer keeps the settings, what it has in hand, and what it has learnt: how many rooms are done, whether the queue has an
//! item, and what the ends of the threads say whose rooms are done. What it has in hand is an enum that owns the room, and says
//! which event comes next:
//!
//! - nothing, with rooms left: the next room is locked; of a room of cells its closing begins with that.
//! - a room with lines left: one is written back. A room whose lines are all written back: a fence.
//! - a room in memory: it goes home, and is done. The queue room tells whether it has an item, a thread's room its end.
//! - the super room: the next epoch is stored, written back and fenced, and the room goes home.
//! - nothing, with all rooms done: the epoch is released. The life is over where no thread may leave.
//!
//! A contract sees these fields. `IsCloser` is what holds of a closer and its thread's view between two steps. Proved here: that a
//! step does exactly the event that comes next, and no other; that the checkpoint and the verdict are those of the ends and of the
//! queue as they were learnt; that each step counts as one between the least and the most that a closer may have done, which from
//! the claim to the release are the bounds of a closing; and that a room in hand can be given up at any time once the power was
//! seen off. No step takes memory. That a room's lines and the epoch survive a cut in between is proved of rooms in hand, and that
//! the whole memory does, above.
#![tactic(auto)]

mod closer;
mod events;
mod hand;
mod laws;
mod learnt;

pub use block_allow::Verdict;
pub use closer::{CloseStep, Closer};
pub use hand::Hand;
pub use laws::{count_laws, stays_laws};
pub use learnt::Learnt;
pub use room_yard::Mark;
