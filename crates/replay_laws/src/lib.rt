//! The laws of replays.
//!
//! Each law is the contract of a public function that does nothing; its statement stands in `replay_model`. Proved here: that a replay opens
//! as one; that a turn changes no other thread's view, that it releases at most one checkpoint, which its worker then has, that it draws at
//! most one entry, which is of its worker's next command, and that a replay stays one; that a thread that gives up holds no room then, and
//! leaves the other views, the history and the checkpoints as they were; and that a report of a start or a resume, which is its yard's when
//! the replay has ended, tells of the life.
#![tactic(auto)]

mod endings;
mod ends;
mod turns;

pub use endings::{resume_told_law, start_told_law};
pub use ends::{gives_up_laws, opens_law};
pub use turns::turn_laws;
