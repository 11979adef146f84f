//! Rooms of the map: each keeps the pairs of one shard in its cells, and carries out one command after the other.
//!
//! A map room keeps a command room and nothing else. Line 0 of its cells is the header (first free line, first line never
//! given out, count of keys); lines 1 to 8 name the first node of each of eight buckets; each later line is a node (key,
//! value, next line), or free. A command is found its place by one walk along the bucket of its key and planned from there,
//! so it costs the length of that chain. `begin` plans it whole and makes all room, before any store; each `step` makes
//! one store; `note` ends the command with its entry. Between commands the cells are entered, closed and restored.
//!
//! - No command under way: no store is left, and the loads are what the room holds (of torn cells: what their restore brings
//!   back). The cells may be in any of their states.
//! - A command under way: the cells run, and what the room holds is what its loads will be behind the stores that are left.
//!   Whatever a cut keeps of them, memory holds the room as it was when the epoch began.
//!
//! A contract sees the command room: settings, number, cells, the stores that are left, the command under way and the
//! entries. What the room holds is a function of these. Proved here: that a command gives the reply of the sequential
//! object, plans exactly the stores of the table of writes, and leaves what the object holds next; that a begin which is
//! refused changes no load, entry or state; and that the listed pairs are those of the room. That an epoch can be undone is
//! proved of the cells below, and that a whole memory stands for one object above. That room can be made is only tested: it
//! may want memory.
#![tactic(auto)]

mod find;
mod listing;
mod map_room;
mod node;
mod plans;
#[cfg(test)]
mod tests;

pub use map_room::MapRoom;
