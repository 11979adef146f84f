//! A thread's handle on a yard of rooms under locks: the trait `Post`, and what each of its answers tells; and the world that a yard
//! is made of and leaves.
//!
//! A `World` keeps the rooms of a memory, all at home, the arrival word and the clock, and room for what the end of a life makes of
//! them: its memory, and the numbers of the rooms that were given back in mid-work. What a life begins with that opens with a world is
//! read off its rooms. The rest of the crate keeps no state. It has the trait, the structs of its answers, what an
//! arrival word allows and the word with which an epoch begins (`allows_leave`, `allows_claim`, `word_of_epoch`), laws, and definitions
//! in specs/:
//!
//! - `World`: what a contract sees of a world, what is read off its rooms, and which world a life opens with.
//! - `Told`: what a handle tells beside its thread's view: the whole yard's state, or the thread's own checkpoints.
//! - `Calls`: what a call asks of its caller, where that is less than its step's condition, and when a word found allows or forbids the step.
//! - `Answers`: one record for each answer of each call, over the view and the state that is told, before the call and behind it. A step's
//!   answer has the view, and the world where it is told, by the functions of the yard's steps.
//! - `Laws`, `Untouched`: the statements of the laws.
//!
//! A contract over any handle sees the view, and no more than that need be told. What an answer says of the whole yard vanishes by
//! computation where a handle does not tell it.
//!
//! Proved here: in each lawful state each call has an answer behind which the state is lawful, so each contract of the trait can be
//! met there (`laws`). Who rests or finds a lock taken looked. Over any handle, a lock and an unlock in a row leave the view as it was, so
//! what `lock` gives meets what `unlock` asks (`touch`). Of a world it is proved that its memory is its rooms' banks, and that what is
//! read off it is the one beginning of a life that opens with it. That code keeps the contracts of `Post` is proved only where a yard
//! stands, and none does yet. That a world can be taken apart and put together is tested.
#![tactic(auto)]

mod answers;
mod arrival;
mod beginning;
pub mod laws;
mod post;
#[cfg(test)]
mod tests;
mod untouched;
mod world;

pub use answers::{Held, HoldsLock, Rest};
pub use arrival::{allows_claim, allows_leave, word_of_epoch};
pub use life_model::Mark;
pub use post::Post;
pub use untouched::{returns_untouched_law, touch};
pub use world::{World, WorldParts};
pub use yard_model::{Beginning, OwnMark, Phase, Room};
