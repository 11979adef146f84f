//! The yard of rooms that one thread owns whole, and a thread's handle on it. No word is shared, so every step is a plain change of
//! fields, and no exchange meets another word than the load before it.
//!
//! A `PlainYard` is made of a `World`, and taken apart into one when no thread holds a room. It keeps the tick word, the arrival
//! word, a lock and a place for each room, a seat for each thread, and the list of all entries, each with the epoch in which it was
//! drawn. Between two calls a thread has the yard, and gives it a number to act as that thread: a `PlainPost` is the yard with such a
//! number, and to make one or take it apart changes nothing. All memory is taken when the yard is made. Then each call costs the same
//! however long the history is, but that a claim looks at one bit for each thread.
//!
//! A contract sees what the life began with and the yard's whole state: its words, rooms and views, the history and the checkpoints.
//! These are read off the fields (specs/`Meaning`, `Kept`):
//!
//! - The clock is the length of the list. A view's own entries are those of its thread in the list, so no seat has them.
//! - A room in hand has the number of entries that were drawn before it was taken, and how many of them the last checkpoint covered
//!   then; its history as taken is its entries among those, which stays as it is when the list grows.
//! - A checkpoint covers the entries of the epochs before the one that it began; which thread released it is not kept.
//!
//! Proved here: the state is lawful between any two calls, whatever was called; no caller owes that. The handle keeps all contracts of
//! `Post`, and it always tells the state. A yard opens with the one beginning of its world. What `take_apart` gives is the rooms as
//! they stand in the state, the two words, and the numbers of the rooms that were given back in mid-work. That code which holds a
//! handle meets the conditions of its calls is proved above. That a yard can be made is not proved: it may want memory.
#![tactic(auto)]

mod emptied;
mod opening;
mod post;
mod room;
mod seat;
mod word;
mod yard;

pub use post::PlainPost;
pub use yard::{NoYard, PlainYard};
