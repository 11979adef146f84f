//! Lines of a room that are taken for nodes and given back: what is planned for it, by the loads of the room's header.
//!
//! The crate keeps no data. Line 0 of a room's cells is its header (free, fresh, count): the first free line, 0 where none
//! is free; the first line that was never given out; and how many keys or items the room holds. A free line's record
//! word 0 names the next free line. A line is taken off the free ones, or else it is the one at fresh; a line that is given
//! back becomes the first free one. The calls only plan: nothing is stored before the plan is played.
//!
//! A contract sees the cells and the plan: which line is taken, and which stores the plan has in addition. Proved here: this,
//! that no line is left exactly by the header's words, and that a taken line of a map or of the queue is in no chain. That
//! the chains stay right behind all stores of a command is proved with the laws of rooms, and used above. That a plan can
//! grow is only tested: it may want memory.
#![tactic(auto)]

mod laws;
mod plans;
mod refusal;
#[cfg(test)]
mod tests;

pub use laws::header_laws;
pub use plans::{plan_count, plan_give, plan_take};
pub use refusal::TakeRefusal;
