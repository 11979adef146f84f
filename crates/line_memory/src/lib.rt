//! Lines of eight words over a memory that loses what was not fenced.
//!
//! The crate keeps banks of lines, and memories of banks. A line has its base, which is what memory holds, and the
//! stores that are pending on it, in order; beside them the number of those that a write-back asked for, and the room
//! for more. A store becomes pending, a write-back asks for all that is pending, a fence moves what was asked for into
//! the base. A power cut leaves a line as its base with any first part of its pending stores made, asked for or not.
//!
//! A line also keeps its words by loads: the base with all pending stores made. So a load costs the same however many
//! stores are pending. No contract sees these words; the type's invariant ties them to the base and the stores.
//!
//! A contract sees a bank as a list of lines and a count of write-backs, and each call that changes a bank as one named
//! function from the old bank to the new one. Proved here: that the calls are these functions; that every line keeps
//! eight words of 64 bits; and the laws of `laws` on loads and on what a power cut can leave. What these words mean to
//! cells, rooms and images is proved above. That a bank can be had and a line can be given room is only tested: both
//! may want memory.
#![tactic(auto)]

mod bank;
mod laws;
mod line;
mod memory;
mod store;
#[cfg(test)]
mod tests;

pub use bank::Bank;
pub use laws::{count_law, fence_laws, load_law, store_laws, survivor_laws};
pub use memory::Memory;
pub use store::{Store, WORDS};
