//! What a history consists of, and what a map is listed as.
//!
//! An entry says who carried out a command and with what reply; the order of entries is the order
//! of the list that holds them.

use crate::command::{Command, Reply};

/// A command that was carried out, with its reply.
#[derive(Clone, Copy, Debug, PartialEq, Eq)]
pub struct Entry {
    /// The number of the thread, from 0.
    pub thread: u32,
    /// The place of the command in its thread's script, from 0.
    pub index: u32,
    /// What was carried out.
    pub command: Command,
    /// What the object replied.
    pub reply: Reply,
}

/// An entry with its place in the history of the life, counted from 0.
#[derive(Clone, Copy, Debug, PartialEq, Eq)]
pub struct Noted {
    /// The place, from 0.
    pub ticket: u64,
    /// The entry at that place.
    pub entry: Entry,
}

/// A key of the map with its value.
#[derive(Clone, Copy, Debug, PartialEq, Eq)]
pub struct Pair {
    /// Any number; it belongs to the shard of its remainder.
    pub key: u64,
    /// Any number.
    pub value: u64,
}

/// Where a thread goes on after a power failure.
#[derive(Clone, Copy, Debug, PartialEq, Eq)]
pub struct RestartPoint {
    /// How many commands of the thread's script are done.
    pub position: u64,
}
