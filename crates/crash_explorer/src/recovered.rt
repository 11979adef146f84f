//! What recovery left.

use crate::outcome::Outcome;
use line_memory::Bank;

/// What recovery of the words that a cut left came to within so many steps.
#[derive(Drop)]
pub struct Recovered {
    /// How many events it made.
    pub events: u32,
    /// The lines in work behind the last of them.
    pub bank: Bank,
    /// What it came to.
    pub outcome: Outcome,
}
