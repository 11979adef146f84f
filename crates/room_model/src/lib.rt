//! What rooms of cells and images mean: definitions, the two kinds of changes that they speak of, and the layouts of rooms as
//! values that run.
#![tactic(auto)]

mod layout;
mod write;

pub use layout::{
    BUCKETS, COUNT, FIRST_EPOCH, FREE, FRESH, HEADER, Heads, LIVE_HEADS, QUEUE_FIRST, TAG,
};
pub use write::{PlannedStore, Write};
