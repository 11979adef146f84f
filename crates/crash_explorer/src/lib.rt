//! A tester for stores on persistent memory: it finds a missing write-back.
//!
//! An author gives a [`Subject`]: a store whose lines can be looked at, that makes one event after the other, and that can be
//! recovered from the words that a power cut leaves. [`explore`] drives it event by event. Behind each event it takes the power away
//! in every way: each line keeps any first part of its pending stores. Each of these survivors is recovered, and the state is to be
//! one that is allowed by what the store has acknowledged. Where a cut has more survivors than a budget, a sample of them is tried:
//! that which keeps nothing, that which keeps all, and one for each seed. Recovery is made of events too: to a depth that the plan names,
//! the power is cut again behind each event of it, and what that leaves is recovered in its turn. The answer is the first cut with a
//! survivor that is not right, and of these survivors the one that keeps the fewest stores; or how many cuts and survivors were tried, and
//! whether that was all of them.
//!
//! A contract sees of a subject what a cut meets at each moment, what recovery leaves behind each of its events, and which moment comes
//! next. Proved here: that a survivor that is told is wrong, and is the first in a fixed order; that all survivors are right to the depth
//! where the answer says so; that a watcher is told once of each event; and that the run ends, whatever the subject does. Want of memory
//! is the one refusal. Each survivor costs a copy of the lines, and no history is kept.
#![tactic(auto)]

mod answer;
mod counts;
mod cutting;
mod effort;
mod leaving;
mod outcome;
mod plan;
mod recovered;
mod recovering;
mod run;
mod sampling;
mod search;
mod subject;
#[cfg(test)]
mod tests;
mod verdict;
mod watcher;

pub use answer::{Answer, CutInside, Tally, Wrong};
pub use outcome::Outcome;
pub use plan::Plan;
pub use recovered::Recovered;
pub use run::explore;
pub use subject::Subject;
pub use watcher::{Silent, Watcher};
