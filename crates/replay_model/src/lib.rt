//! The run of a replay, as plain data: which states the turns of a schedule lead through, where the run ends, and what is left of it.
//!
//! A state of a replay is a yard with its views, and the workers of its threads, each with the room that it has in hand. A turn of a
//! thread leads from one state to the next by the table of a turn, and changes nothing else. The crate has no code. It has definitions in
//! specs/:
//!
//! - `Replays`: states, a turn of a thread, the run of a schedule and its end, and the giving up of rooms behind it.
//! - `Kept`: what holds of each state of a run.
//! - `Endings`: which report and memory are those of a yard when its replay has ended.
//! - `Laws`: the statements of the laws on these.
//!
//! The laws are proved beside this crate.
#![tactic(auto)]
