//! Flush lists: the lines of a bank that are to be flushed, each once, in the order of their first marks.
//!
//! A line joins the list at its first mark, and a further mark leaves it in its place. The lines are then given one by
//! one, from the first mark on. A mark takes a place of the room that was made before, and no memory; a list that is
//! cleared has its places as room again. The first line has a place of its own, so a list of one line never takes
//! memory. Whether a line is listed is asked in constant time.
//!
//! A contract sees the list of lines, how many of them were given, and the room for more; each call that changes a list
//! is one named function from the old to the new value. Proved here: that the calls are these functions; that no line is
//! listed twice; and the law that after any marks each marked line is given once, in the order of the first marks. That
//! a list can be given room is only tested: it may want memory.
#![tactic(auto)]

mod laws;
mod list;
#[cfg(test)]
mod tests;

pub use laws::flush_list_laws;
pub use list::FlushList;
