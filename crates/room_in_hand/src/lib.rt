//! A room in a thread's hands: what holds of it from the lock to the unlock, by what it is used for.
//!
//! The crate keeps no state. What a holder knows of its room is a `Knowledge`, computed from the thread's view and what was known
//! of the room as it was taken: the settings, the room's number, the epoch, the entries of its commands, what the object held
//! behind the last checkpoint and holds now, and how many write-backs it had. By its use a room in hand is one of these, and each
//! says what memory has of the room wherever a cut comes, and how many write-backs it has and owes:
//!
//! - resting: nothing is under way in it. Its loads stand for what its history leaves.
//! - flushing: its closing has begun, and lines are left to be written back.
//! - flushed: all its lines are written back, and a fence is due.
//! - shut: it is in memory.
//! - writing the epoch: it is the super room, at one of the four stages of the write of the next epoch.
//! - working: a command is under way in it. So many of its stores are made, and behind those that are left it stands for what the
//!   command leaves.
//! - writing a restart point: it is the thread's own room, and has the point behind the stores that are left.
//!
//! A contract sees the room's value. Each event is one named total function from the old room to the new one, but for the places
//! that a command's begin may make, and promises, for whatever is known of the room, that it stays in hand and what it is used for
//! then. Maps, the queue and threads' rooms go through the same calls. Proved here: that what `lock` gives is in hand, that each
//! event leaves it so; that a room that is shut meets what `unlock` asks of a thread that closes, and so does the super room with the
//! next epoch in memory; that a room of commands in which nothing is under way, and the own room whose restart point is written, meet
//! what `unlock` asks of a thread that runs; and that whatever is done with a room, it meets what `retreat` asks once the power was
//! seen off. Who takes the events in which order is proved above.
#![tactic(auto)]

mod closing;
mod commands;
mod epoch;
mod laws;
mod points;

pub use closing::{begin_closing, fence_room, of_its_type, write_line_back};
pub use commands::{begin_command, make_store, note_entry, stores_left};
pub use epoch::{fence_epoch, store_epoch, write_epoch_back};
pub use laws::{given_laws, return_laws, running_laws};
pub use points::begin_point;
