//! Accounts on persistent memory: a store over the libraries, and the least that one needs.
//!
//! Each account is a cell, whose record word 0 is its balance. A transfer takes an amount from one account and gives it to another; a
//! checkpoint closes the epoch; a recovery brings the last checkpoint back from what a power cut left. A transfer, a checkpoint and a
//! recovery are begun by one call each, and then each of their events is one [`AccountStore::step`], so that there is a call behind which
//! the power may be cut at every event; [`AccountStore::finish`] makes all that are left.
//!
//! A contract sees the cells with their epoch, as [`epoch_cells::EpochCells`] has them, and reads the balances off their records. Proved
//! here, of every store that these calls lead to:
//!
//! - a transfer moves the amount, and nothing else changes the balances ([`AccountStore::transfer`], [`AccountStore::step`]);
//! - the last checkpoint changes only at the last event of a checkpoint or of a recovery, and is then the balances;
//! - whatever a cut keeps can be recovered, to the balances of the last checkpoint, or to those of the next while its epoch is pending;
//! - the sum of all balances is the same in each of these states ([`cut_law`]);
//! - a recovery has the balances that it found, and so have its events ([`AccountStore::recover`]).
//!
//! Want of memory is the one refusal. That memory can be had is only tested.
#![tactic(auto)]

mod laws;
mod store;
#[cfg(test)]
mod tests;

pub use laws::cut_law;
pub use store::AccountStore;
