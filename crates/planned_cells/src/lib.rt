//! Cells with a plan of the stores that are left, and the calls that every room of cells has.
//!
//! Each room that writes to cells keeps them with a plan: a command, or a write of a position, is planned first, and then
//! made store by store. `PlannedCells` is that pair. `CellRoom` has the calls by which a room of cells is entered, closed
//! and restored, and its contract says them once for every kind of room: each changes nothing of the room but its cells,
//! these are the cells' own next ones, and the words that the room means stay.
//!
//! - No store left: the cells are in any of their states.
//! - Stores left: the cells run, each store that is left may be made in its turn, and there is room for all of them.
//!
//! A contract sees the cells and the plan. Proved here: that each call leaves what the words mean, and what memory holds of
//! them at the epoch of the cells. What cuts leave in each state of the cells is proved below; what the words stand for, and
//! which stores are planned, above. That a line can be given room is only tested: it may want memory.
#![tactic(auto)]

mod cell_room;
mod planned_cells;

pub use cell_room::CellRoom;
pub use planned_cells::PlannedCells;

#[cfg(test)]
mod tests;
