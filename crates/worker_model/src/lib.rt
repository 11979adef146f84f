//! What a worker is as plain data, what each of its turns does, and how many events it has done.
//!
//! A worker carries out a thread's script over a handle on a yard, one event at each turn. The crate has no code. It has the enums of what
//! a worker has in hand and of what a turn answers, and definitions in specs/:
//!
//! - `Workers`: a worker as a contract sees it, and what holds of it and its thread's view between two turns.
//! - `Turns`: the table of a turn, row by row. What a worker has in hand, and what it keeps beside, decide which row is the first that
//!   applies; each row is a relation between worker, view and told state before the turn and behind it.
//! - `Counts`: the least and the most events that a worker has done, by its entries, its checkpoints and the epochs in which it ran.
//! - `Laws`: the statements of the laws on these.
//!
//! The laws are proved beside this crate, and that code takes these turns, above.
#![tactic(auto)]

mod hand;

pub use hand::{Hand, Turn};
