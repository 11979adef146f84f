//! What a power cut leaves of a bank of lines.
//!
//! At a power cut each line keeps its base with some first part of its pending stores made, whether they were asked for
//! or not. A choice names this part for each line: nothing, all, a part drawn by a seed, or a part that a list names. The
//! crate gives the lines that a choice leaves, and tells whether given lines may be left under some choice.
//!
//! A contract sees a choice as a function from the number of a line, counted through all rooms, and the number of its
//! pending stores to the number of those that it keeps. Proved here: that `survive` leaves exactly the lines of this
//! function, and so does `survive_next` from bank to bank, which draws each word of a seed once; that a choice never keeps
//! more than is pending; and that `may_be_left` answers true exactly at the survivors. That the first words drawn by a seed
//! are those that SplitMix64 has elsewhere, and that memory suffices, is only tested.
#![tactic(auto)]

mod choice;
mod laws;
mod left;
mod listed;
mod survivors;

pub use choice::{Choice, Kept};
pub use laws::choice_laws;
pub use left::may_be_left;
pub use survivors::{generator_of, survive, survive_next};

#[cfg(test)]
mod tests;
