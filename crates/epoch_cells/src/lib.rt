//! Cells and the one epoch word of their memory: what every store over cells repeats, done once.
//!
//! A store of one's own keeps its variables in the records of cells, three words each. [`EpochCells`] has the cells, the stores that are
//! left of its writes, the epoch word, and which event comes next. Writes, a checkpoint and a recovery are begun by one call each, and
//! then each of their events is one [`EpochCells::step`], so that there is a call behind which the power may be cut at every event;
//! [`EpochCells::finish`] makes all that are left.
//!
//! A contract sees the records as lists: those that the cells mean, and those of the last checkpoint. A store whose variables are one word
//! each reads them as columns, which are lists of numbers ([`column_laws`]). So what an author proves is about lists of his own. Proved here, of any number of cells, and of every state that these calls lead to:
//!
//! - writes change the records that are meant as a list is changed, and nothing else changes them ([`EpochCells::write`]);
//! - the last checkpoint changes only at the last event of a checkpoint or of a recovery, and is then what the cells mean
//!   ([`EpochCells::step`]);
//! - whatever a cut keeps can be recovered, to the records of the last checkpoint, or, while the next epoch is pending, to those that the
//!   cells mean ([`cut_law`]);
//! - a recovery has the records that it found, and new cells those that they were given ([`EpochCells::recover`], [`EpochCells::new`]).
//!
//! Want of memory is the one refusal. That memory can be had is only tested.
#![tactic(auto)]

mod epoch_cells;
mod events;
mod laws;
mod stage;
#[cfg(test)]
mod tests;

pub use epoch_cells::EpochCells;
pub use laws::{column_laws, cut_law};
pub use stage::Stage;
