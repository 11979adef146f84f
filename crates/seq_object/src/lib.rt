//! The sequential object: what each command replies and leaves, for all crates that keep it in lines.
//!
//! The object is a finite map of numbers, whose keys belong to shards, and a queue of numbers. A
//! command gives one reply and one next state; a take has no reply while the queue is empty. A
//! shard and the queue have a capacity, which the sizes of a memory fix. A history is a list of
//! commands that were carried out, each with its thread, its place in the thread's script and its
//! reply.
//!
//! A contract sees the words of specs/: the sizes, their limits and the rooms that they fix (Sizes),
//! replies, next states and the room of a command (Object), histories, when they are legal and what
//! they leave (History). The laws on them are public functions with empty bodies, in `laws`: histories
//! in pieces, room by room, and counted by room and by thread.
//!
//! Proved here: `Plain` is the object exactly, in replies and in what it holds after each command;
//! `route` is the room of a command; `Sizes` has the limits, the numbers of the rooms and their lines;
//! and all the laws. Only above: that rooms of lines stand for parts of the object. Only tested: that
//! calls find memory, and the replies of short scripts that were worked out by hand.
#![tactic(auto)]

mod command;
mod history;
pub mod laws;
mod plain;
mod routing;
mod settings;
mod sizes;

pub use command::{Command, Reply};
pub use history::{Entry, Noted, Pair, RestartPoint};
pub use plain::Plain;
pub use routing::route;
pub use settings::{MOST_EVERY, Settings};
pub use sizes::{LEAST_LINES, MOST_LINES, MOST_SHARDS, MOST_THREADS, Sizes};

#[cfg(test)]
mod tests;
