//! The progress that a replay shows, and what is known of whole schedules by it: how many rounds end a replay, and how seldom it closes an epoch.
//!
//! A replay shows a progress (`rounds`) by its yard (`yard_progress`) and by what is in its workers' hands. The crate keeps no state, has no code
//! and nothing to test. It has definitions in specs/:
//!
//! - `Shown`: what the hand of a worker is in a progress, and what a replay keeps beside the lawful yard and its workers while no thread saw
//!   the power off: that each thread's room has the end that its worker told last, that the life goes on, and that lines were seldom written back.
//! - `Runs`: the runs of which each state is a replay.
//! - `Laws`: the statements of the laws on these.
//!
//! Each law is the contract of a public function that does nothing. Proved here: a replay that goes on right shows hands, and so a sound progress;
//! one that opens goes on right; each turn that meets no want of memory is a turn of the progress, behind which the replay goes on right, and one
//! that meets it draws and releases nothing; a run is a run of the progress; the turns of a schedule that offers enough rounds end the life; and of
//! what a run leads to the closings are at most two for each entry and one for each thread.
//!
//! Premises here, for who builds a replay: no worker begins with the end of one that waits, since the end in a thread's room is Ready or Ended
//! where a life opens; and the rooms' counts of write-backs begin below half of their type's end. How many rounds a schedule offers is a law of
//! `life_laws` where it names the threads in turn. A life whose power ends, or that meets want of memory, is not ended by rounds.
#![tactic(auto)]

mod ends;
mod kept;
mod shown;
mod turns;

pub use ends::{replay_closes_seldom_law, replay_ends_law, takeless_replay_ends_law};
pub use kept::{kept_run_goes_on_law, kept_run_stays_law, kept_runs_law};
pub use shown::{hands_shown_law, opens_right_law, run_is_shown_law};
pub use turns::{refused_turn_law, turn_is_shown_law};
