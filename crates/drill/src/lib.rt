//! The drill: nine lives of one memory, whose commands, schedules and power cuts are drawn by one number, and a summary of what is left.
//!
//! Nothing here keeps a state. The script of a life is made of the drill's number and the life's; the commands are the same in all lives. Life 0
//! is a start over formatted memory, and each later one a resume over the memory of the image that the cut behind the life before leaves.
//! Eight lives end in a cut that keeps what a seed draws; the ninth has turns enough to finish whatever is left.
//!
//! A contract sees a script as its program, a life as how it opened, its report and the memory that it left, and a summary as its numbers.
//! Proved here: that `run_drill` lives these nine lives, each the replay of its program over what the life before left, and tells what the last
//! one's memory recovers to; that the last life is finished, and that all 800 commands are kept, each once, in one history of all lives; that
//! each resume may begin; that `drill_script` gives the stated program, which has a text and is one of a schedule; that `summary_of` counts
//! what it is handed; and that `summary_text` writes the one text. Only tested: which words SplitMix64 draws, and that memory suffices.
#![tactic(auto)]

mod lives;
mod scripts;
mod summary;

pub use lives::run_drill;
pub use scripts::drill_script;
pub use summary::{Summary, summary_of, summary_text};

#[cfg(test)]
mod tests;
