//! Cells: lines that carry a backup of their record, so that an epoch that a power cut broke off can be undone.
//!
//! The crate keeps banks of cells. A cell is one line: words 0 to 2 are its record, words 3 to 5 a backup of the record,
//! word 6 the tag, which is an epoch. The triple of a cell at an epoch is its backup where it has the epoch's tag, else
//! its record. The first write of a cell in an epoch stores the backup and then the tag before it stores the record.
//!
//! A bank of cells is in one of four states, and in each of them this holds of every cell:
//!
//! - `Saved(e)`: nothing is pending, and the tag is at most `e`. At every later epoch the triple is the one by loads.
//! - `Running(e)`: stores are made by plans. Whatever a cut keeps, the tag is at most `e`, and the triple at `e` is the one
//!   that memory holds, which is the triple by loads when the epoch began.
//! - `Closing(e)`: the same, while the lines that were stored to are written back one by one. A fence then makes it `Saved(e)`.
//! - `Torn(e)`: a cut in epoch `e` left the cells, or their restore goes on. Whatever a further cut keeps, the triple at `e`
//!   is the one that the first cut left. The events of the restore that are left are a list; each names a place and no value.
//!
//! A contract sees the bank, the state, and the events of the restore that are left; of a plan it sees the stores that are
//! left and the room for more. A call that changes them is one named function from the old to the new value. Proved here:
//! what stands above, after each single store, write-back and fence; which stores a write plans; that a closing writes
//! each line back that was stored to, once, and no other; that a restore ends with the loads that the cut's triples say;
//! and the laws of `laws`. What the rooms mean is proved above, as is that a whole memory stands for one state. That a
//! plan, a line or a restore can be given room is only tested: each may want memory.
#![tactic(auto)]

mod cells;
mod laws;
mod plan;
mod restore;
mod state;

pub use cells::CellBank;
pub use laws::{
    plan_laws, restore_laws, restore_write_back_laws, room_laws, saved_laws, survivor_laws,
};
pub use plan::Plan;
pub use restore::{RestoreEvent, RestoreStep};
pub use state::CellState;

#[cfg(test)]
mod tests;
