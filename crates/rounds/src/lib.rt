//! How many rounds of a schedule end a replay, and how seldom a replay closes an epoch.
//!
//! A progress is what the next turn of each thread depends on, and no more: the thread's phase and what is in its hand, the epoch in which
//! it last ran, its quota, its next command, the end that stands in its room; and of all threads the epoch, the entries, the closings and the
//! write-backs. There are no rooms, no words and no histories in it. A turn makes an event of the table of a turn, or leaves the progress as it
//! is. The crate keeps no state, has no code and nothing to test. It has definitions in specs/:
//!
//! - `Progress`: the progress of a thread, of what all share, and of a replay.
//! - `Events`: the events, when each may be made and what it leaves; when a turn rests or waits; and the turns of a schedule.
//! - `Sound`: what each progress of a replay meets.
//! - `Spent`: how much is done, how many rounds are enough, and how the closings are counted.
//! - `Laws`: the statements of the laws on these.
//!
//! Each law is the contract of a public function that does nothing, over every progress that is sound. Proved here: where a life is not over
//! the turn of some thread makes an event; each event spends one more; and so much is spent at most. So in each round something happens until
//! the life is over, and the stated numbers of rounds end it. Without a take the closings are at most as many as the entries, else two for each
//! entry and one for each thread.
//!
//! What is sound is a premise, at each progress that a turn leads to: no law here says that an event keeps it. A lawful yard shows a progress
//! that is sound, as `yard_progress` proves, and each turn of a worker is an event of it or a rest, as `replay_progress` proves. The end of the
//! power, want of memory, and a room that is given up are no part of a progress.
#![tactic(auto)]

mod closings;
mod ends;
mod turns;

pub use closings::{closings_law, seldom_law, takeless_closings_law, takes_law};
pub use ends::{ends_law, ends_takes_law};
pub use turns::{progress_law, ran_law, spends_law, spent_law, waits_law};
