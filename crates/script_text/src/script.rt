//! Scripts: all that a run is told before it begins.
//! A script that was read from a text is within its limits, which the contract of the reader says.

use crate::mode::Mode;
use seq_object::{Command, Settings};
use store_order::Choice;

/// What is to be run.
#[derive(Debug, Drop)]
pub struct Script {
    /// How many threads, shards and lines there are, and how many commands an epoch has.
    pub settings: Settings,
    /// Which thread has which turn.
    pub mode: Mode,
    /// What a power cut at the end of the run keeps.
    pub keep: Choice,
    /// The commands of each thread, from thread 0 on; at most 4,096 of each.
    pub threads: Vec<Vec<Command>>,
}
