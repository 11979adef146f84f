//! Which threads may leave their restart points, and whether a life goes on.
//!
//! A thread that found the queue empty may leave in an epoch that began with an item in it, and no sooner. What the ends
//! of all threads say together is a verdict: the life goes on, is finished, or is stalled, since each thread that is
//! left waits for an item that none brings. Each is one total function of plain values; a contract sees the ends as a
//! list. Proved here: the table of both functions. That the ends are those of the scripts is proved above.
#![tactic(auto)]

mod ends;
mod judgement;

pub use ends::{may_leave, verdict};
pub use judgement::Verdict;

#[cfg(test)]
mod tests;
