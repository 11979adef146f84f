//! The world that a start opens with.
//!
//! It is made of formatted memory, the settings and the lengths of the threads' scripts, in one call. Each room of cells is saved
//! before the first epoch, and its lines are as they were formatted. A room of commands has no command under way and none done; a
//! thread's room is at place 0, with the end `Ended` where its thread's script has no command, and else `Ready`. All threads stand, none
//! closes, the queue has no item, and the epoch is 1. The life is over from the first on exactly where no thread has a command.
//!
//! Nothing is kept here: the world has all that is made, with room for what the end of a life makes of it. What a cut leaves of it is
//! what it leaves of formatted memory, since nothing is pending and no word has changed.
//!
//! A contract sees the memory as `formatted_memory`, the lengths, and what a start begins with (`start_beginning`), which says the scripts
//! that the call itself never sees: whatever scripts have these lengths.
//!
//! Proved here: the one world that is made is one that a start of each such list of scripts opens with. That scripts are read, and
//! that a yard is made of the world, is above. Only tested: that memory suffices for a world of two threads.
#![tactic(auto)]

mod laws;
mod room;
mod start;
#[cfg(test)]
mod tests;

pub use laws::start_laws;
pub use start::fresh;
