//! The check of an image: whether it is lawful, and the state that a lawful image recovers to.
//!
//! `check_image` answers `Recovered`, or the first fault of the image's words in this order: the epoch; the first tag that is
//! ahead of it, by room and line; then the rooms one by one, the map rooms first and then the queue room, each by its header,
//! its chains, the queue's last line, its free lines, its counts. It keeps nothing of the image.
//!
//! Each tag is looked at once, and each list of lines is walked once, the queue's chain once more for its items. Walks are
//! those of `room_walks`, beside marks of the lines met: one is refused at a line that was not given out or was met before, so
//! it ends on hostile words too. The pairs of all shards stand in one tree, which tells keys that were met before and lists
//! the pairs in order at the end. So a check takes n log n steps in the lines of the image.
//!
//! A contract sees an image as its sizes and its rooms. The first fault is a function of these: of one room by walks whose
//! lines are a list (`queue_fault`, `map_fault`), of all by the list of checks in order (`image_fault`). Where map rooms have
//! the heads of their buckets is a parameter of the definitions and of the checks of a room.
//!
//! Proved here: that an answer is given exactly where the image is lawful, and is then its epoch and state; that a fault is
//! the first one; that no fault is found exactly where a room stands for something and where an image is lawful; and that
//! whatever a power cut leaves of a memory that is safe at one is lawful. Neither proved nor tested: when memory runs out, and
//! what a check costs in time.
#![tactic(auto)]

mod cells;
mod chains;
mod checking;
mod laws;
mod recovered;
mod recovering;
mod room_checks;
mod room_fault;
mod view;
mod walking;

pub use laws::{image_fault_laws, left_lawful_law, map_fault_laws, queue_fault_laws};
pub use recovered::Recovered;
pub use recovering::check_image;

#[cfg(test)]
mod tests;
