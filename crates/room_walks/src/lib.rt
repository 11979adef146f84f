//! Walks along the chains of a room: from a line to the one that a word of it names, until 0.
//!
//! Any room whose record words can be read can be walked: cells by their loads, and, above, the cells of an image as they
//! recover. A walk is a value that names the line it meets next, the word that names the line behind each, and how many lines
//! it may meet; so it ends whatever the words are. A line that is none of the room's reads as zeros: a walk that is led to
//! one meets it, and ends behind it.
//!
//! A contract sees the three numbers of a walk and the words of the room. Proved here: which line a walk meets next, and where
//! it stands then; and that the items of a queue room are read from front to back, as `room_model` says what a room holds.
//! What a chain is, and that walks over lawful rooms end in time, is proved above. Neither proved nor tested: when memory runs out.
#![tactic(auto)]

mod cells;
mod queue;
mod reads_words;
mod walk;

pub use queue::items;
pub use reads_words::ReadsWords;
pub use walk::Walk;

#[cfg(test)]
mod tests;
