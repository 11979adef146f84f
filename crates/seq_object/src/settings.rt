//! What a script settles before its commands, and the limits of that.
//!
//! Threads, shards and lines fix the sizes of a memory; how many commands make an epoch may differ
//! from one life of a memory to the next.

use crate::sizes::Sizes;

/// The greatest number of commands that a thread carries out in an epoch.
pub const MOST_EVERY: u32 = 1_024;

/// The sizes of a memory, and how many commands a thread carries out in an epoch.
#[derive(Clone, Copy, Debug, PartialEq, Eq)]
pub struct Settings {
    /// How many threads there are, from 1 to 16.
    pub threads: u32,
    /// How many shards the map has, each in a room of its own, from 1 to 8.
    pub shards: u32,
    /// How many lines each map room and the queue room have, from 16 to 65,536.
    pub lines: u32,
    /// How many commands a thread carries out in an epoch, from 1 to 1,024.
    pub every: u32,
}

impl Settings {
    ghost use Rattle.std.specs.Prelude.{IsTrue, ◌↔◌, ◌≡◌};
    ghost use Rattle.seq_object.specs.Sizes.{IsValid, sizes_of};

    /// The sizes among the settings.
    pub fn sizes(&self) -> Sizes
        ensures { result ≡ sizes_of self.now }
    {
        Sizes {
            threads: self.threads,
            shards: self.shards,
            lines: self.lines,
        }
    }

    /// Whether each of these numbers is within its limits, the limits themselves included.
    pub fn valid(&self) -> bool
        ensures { IsTrue result ↔ IsValid self.now }
    {
        self.sizes().valid() && (1..=MOST_EVERY).contains(&self.every)
    }
}
