//! The laws of the yard: what is lawful before a step is lawful behind it. Each law is the contract of a function that does nothing, so
//! that the gate proves it.
//!
//! The crate keeps no state, has no code and nothing to test. `steps` has one law for each kind of step of a thread, at the whole lawful
//! world. `bounds` says what a step finds: a free room and what may be known of it, words that do not wrap, an epoch in range.
//! `beginnings` says that a life opens with a lawful world, and `lives` what a lawful world says of its life: it is legal, its memory is
//! safe at a power cut, its loads are what the history leaves, it ends as the yard shows, and it wrote little back. `shares` says that what
//! the threads or the rooms have of a history fixes it. The statements are in the crate of the yard's
//! definitions. That code makes these steps, and meets their conditions, is proved in the crates above.
#![tactic(auto)]

pub mod beginnings;
pub mod bounds;
pub mod lives;
pub mod shares;
pub mod steps;
