//! The progress that a yard shows: a lawful yard, and what is in the hands of its threads, show a sound progress of a replay.
//!
//! The crate keeps no state, has no code and nothing to test. It has definitions in specs/:
//!
//! - `Shown`: the progress of a yard, by what each thread is about, the end that stands in its room, and how many lines were written back;
//!   and what is asked of these beside the lawful yard.
//! - `Laws`: the statements of the laws on these.
//!
//! Each law is the contract of a public function that does nothing. Proved here: such a progress is sound; a life that opens shows one, and
//! goes on behind its opening and behind each release; a thread whose leave and claim are refused rests, and where a running thread finds a
//! lock taken, some thread holds a room; a leave, a draw and a release are events of the progress; and any other step that changes one view
//! changes the progress of that thread alone, beside the write-backs.
//!
//! What the hands show is a premise here: that a replay shows such hands at each turn, and that each turn of a worker is an event or a rest, is
//! proved in `replay_progress`. So are the write-backs, which are any number here that is small enough; how few they are in a lawful yard is a
//! law of `yard_laws`.
#![tactic(auto)]

mod going;
mod sound;
mod steps;

pub use going::{opens_going_law, opens_shown_law, releases_going_law, takeless_entry_law};
pub use sound::{holder_law, rest_shown_law, sound_law};
pub use steps::{draw_shown_law, leave_shown_law, release_shown_law, view_shown_law};
