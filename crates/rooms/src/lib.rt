//! The rooms of a memory: one type for a shard of the map, the queue, a thread's restart point and the memory epoch.
//!
//! Which kind a room is goes by its number. Whoever closes an epoch or restores a memory goes through all rooms in the order
//! of their numbers, and does the same calls on each: those of a room of cells, which are the same for every kind, so that
//! one proof serves all. What a kind has beside them (the commands of a map or of the queue, a thread's position, the
//! events of the epoch) is had by a `match`.
//!
//! The super room is a line and no cells. It is not entered, and no closing of cells begins on it; a restore has nothing to
//! do on it.
//!
//! A contract sees the room as its kind's own value. Proved here: that each call leaves the room's kind and all of it but its
//! cells, which become what the call makes of cells, and that the words that the room means stay. What these words stand for
//! is proved in the crates of the kinds, and above.
#![tactic(auto)]

mod laws;
mod room;

pub use laws::{line_laws, other_cells_laws};
pub use planned_cells::CellRoom;
pub use room::Room;

#[cfg(test)]
mod tests;
