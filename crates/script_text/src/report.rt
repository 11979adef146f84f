//! Reports: what a life did and how it ended.
//! A report is written once, at the end of its life.

use life_model::{Mark, Outcome};
use seq_object::Entry;

/// What a life did, and how it ended.
#[derive(Debug, Drop)]
pub struct Report {
    /// Whether the life went on from an image.
    pub resumed: bool,
    /// The memory's epoch as the life began, at a resume before recovery.
    pub began: u32,
    /// The history of the life.
    pub entries: Vec<Entry>,
    /// The acknowledged epoch writes, in order.
    pub marks: Vec<Mark>,
    /// The numbers of the rooms that were held at the end, ascending.
    pub held: Vec<u32>,
    /// How many write-backs the life made.
    pub flushed: u64,
    /// How the life ended.
    pub outcome: Outcome,
}
