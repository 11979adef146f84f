//! Which thread has which turn of a replay, one turn after the other.
//!
//! The turns of a script name threads: going round, by a list, or drawn by a seed. A [`TurnOrder`] has how many turns were given and the
//! generator behind them, so that each turn costs the same, however many were given before. It takes no memory. Threads that run by
//! themselves have no turns.
//!
//! A contract sees the number of threads, how many turns were given, and the generator's state. Proved here: that each turn is that of
//! the thread at its place in the schedule that `script_text` defines, that none is given behind the last, and that the generator has
//! drawn one word for each turn of a seed. That the words of a seed are those that SplitMix64 has elsewhere is only tested.
#![tactic(auto)]

mod order;

pub use order::TurnOrder;

#[cfg(test)]
mod tests;
