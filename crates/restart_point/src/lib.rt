//! A thread's restart point: where in its script a thread goes on after a power cut, and the word in which threads meet.
//!
//! A thread's room is one cell, whose record word 0 is the thread's position, the number of its commands that are done. The
//! room keeps the stores that are left of a write of the position, and the thread's end: whether it has a command to do,
//! waits for an item, or is at its script's end. The end is not in memory; it is told anew when a life begins. The room takes all
//! its memory when it is made, for the five stores that an epoch may make. In each state of its cells this holds of the room:
//!
//! - saved: nothing is pending, and no store is left; whatever a cut keeps, each later epoch has the position by load.
//! - running: the position is written once at most. Whatever a cut keeps, and wherever it falls between the five stores,
//!   the epoch has the position that memory holds, which is the one by load when the epoch began.
//! - closing: the same, while the line is written back. No store is left.
//! - torn: the room waits for its restore, event by event. No store is left.
//!
//! A contract sees the cells, the plan and the end; each call is one named function from the old room to the new one.
//! Proved here: which stores a write of the position has, and that there are five; that the position is by load the one
//! that was given when all are made; and what stands above, after each single store, write-back and fence. Of the arrival word it is
//! proved that it and what it says fix each other. That the position is that of the script is proved above. That a room
//! can be made is only tested: it may want memory.
#![tactic(auto)]

mod arrival;
mod laws;
mod thread_end;
mod thread_room;

pub use arrival::Arrival;
pub use laws::{arrival_laws, thread_laws};
pub use thread_end::ThreadEnd;
pub use thread_room::ThreadRoom;

#[cfg(test)]
mod tests;
