//! What an image recovers to.

use seq_object::Pair;

/// The state that a lawful image recovers to.
#[derive(Debug, PartialEq, Eq, Drop)]
pub struct Recovered {
    /// The epoch of the image, from 1.
    pub epoch: u32,
    /// How many commands of each thread are carried out, by the thread's number.
    pub positions: Vec<u64>,
    /// The pairs of all shards, in the order of their keys.
    pub pairs: Vec<Pair>,
    /// The items of the queue, from front to back.
    pub items: Vec<u64>,
}
