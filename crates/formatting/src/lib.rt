//! Formatted memory: what a start begins with.
//!
//! Every word of formatted memory is 0, but that the header of each map room and of the queue room names the room's first node
//! line as the first line to be given out, and that the epoch is 1. So its map and its queue are empty, and no thread has
//! carried out a command.
//!
//! A contract sees formatted memory as a list of banks (`formatted_memory`), and each of them by its room's number
//! (`formatted_bank`). Proved here: that `format` and `format_room` make exactly these, for all sizes within their limits; that
//! nothing is pending in them and nothing was written back; and, as laws, that each bank loads and holds the words of its
//! room, and that a power cut leaves the formatted image whatever it keeps. What the rooms stand for is proved in room_laws.
//! Only tested: that there is memory for them.
#![tactic(auto)]

mod banks;
mod laws;

pub use banks::{format, format_room};
pub use laws::{formatted_bank_laws, formatted_memory_laws};

#[cfg(test)]
mod tests;
