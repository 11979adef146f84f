//! The super room: the one line whose word 0 says which epoch memory is in. It is no cell; a store of the next epoch is
//! what makes an epoch's work count.
//!
//! The room keeps a bank of one line, and room for one store. Nothing is pending on the line, or the store of the next
//! epoch alone, so whatever a power cut keeps, it leaves the epoch before that store or the one after it. A write-back and
//! then a fence bring the store into memory. A contract sees the bank; each call is one named function from the old bank
//! to the new one. Proved here: these functions, what every survivor has as its epoch at each stage of the write, and that
//! the three events lead from one stage to the next. What an epoch means to the cells is proved above. That the room for the store can be had is only
//! tested: it may want memory.
#![tactic(auto)]

mod stage;
mod super_room;

pub use stage::{EpochStage, stage_laws};
pub use super_room::{SuperRoom, epoch_laws};

#[cfg(test)]
mod tests;
