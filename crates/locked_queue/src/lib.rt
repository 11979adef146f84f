//! The queue room: a queue of numbers in the lines of one room, which carries out one command at a time.
//!
//! A queue room is a command room with the number behind those of the shards. Line 0 of its cells is the header (free, fresh,
//! count), line 1 has the ends (first, last), and from line 2 on come the nodes (item, next), in one chain, and the free
//! lines. So it holds as many items as it has lines, less two. Each command costs the same, however many items there are.
//!
//! - No command under way: the cells are in any of their states, and no store is left. The loads stand for the items; of torn
//!   cells what their restore brings back does.
//! - A command under way: the cells run, the reply is settled, and the stores of the command are made one after the other.
//!   Behind those that are left the room stands for the items after the command. Nothing more takes memory.
//!
//! A contract sees the fields of the command room: the cells, the plan, the command under way and the entries. The items are
//! a function of them, and each call is one named function from the old room to the new one.
//!
//! Proved here: `begin` gives the sequential object's reply, plans exactly the command's stores and leaves the next items;
//! it has no reply exactly for a take of an empty queue, which changes nothing; it says full exactly where as many items are
//! held as lines less two; the other calls leave the items; `entries` and `is_empty` read them by loads. Proved below: what each
//! survivor of the cells has in their states, and how many stores a command has at most. Only above: that one thread at a
//! time has the room, and what a memory of several rooms stands for. Only tested: that memory is found.
#![tactic(auto)]

mod laws;
mod plans;
mod room;
#[cfg(test)]
mod tests;

pub use laws::{full_law, items_law};
pub use room::QueueRoom;
