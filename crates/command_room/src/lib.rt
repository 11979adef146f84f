//! Rooms that carry out commands: what a map room and the queue room have in common.
//!
//! A command room keeps cells, the stores of the command under way that are left, that command with its reply, and the
//! entries of the commands that are done. A command is planned first, by reads alone; `begin_planned` then makes all the
//! room that it needs, `step` makes one store after the other, and `note` ends it with its entry. Between commands the
//! cells are entered, closed and restored by the calls of a room of cells.
//!
//! - No command under way: no store is left. The loads are what the room holds (of torn cells: what their restore brings
//!   back), and the cells may be in any of their states.
//! - A command under way: the cells run. Its first stores are made and the others are left; behind them the room holds
//!   what the object holds after the command. There is room for each store and for the entry, so nothing more takes memory.
//!
//! A contract sees the fields: the cells, the plan, the command under way and the entries. What the room holds is a function
//! of them, and a call that changes them is one named function from the old to the new room. Proved here: that a planned
//! command gives the sequential object's reply and leaves its next contents, that every other call leaves the contents,
//! that each store may be made in its turn, and how far the stores of a command are made. Which stores a command plans is
//! proved in the crates of the two kinds of rooms, and what cuts leave of the cells in the crate of cells. That room can be
//! made is only tested: it may want memory.
#![tactic(auto)]

mod laws;
mod noted_list;
mod room;
mod runs_commands;
#[cfg(test)]
mod tests;
mod under_way;

pub use laws::{formatted_room_law, made_laws, planning_laws, whole_laws};
pub use noted_list::NotedList;
pub use room::CommandRoom;
pub use runs_commands::RunsCommands;
pub use under_way::UnderWay;
