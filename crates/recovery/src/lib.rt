//! A recovery: what puts a memory back after a power cut, event by event.
//!
//! It is begun on a memory in which nothing is pending and whose image is lawful. Its events come in one order: for each room but
//! the super room, in the order of their numbers, three stores for each line that is tagged with the image's epoch, ascending, then
//! a write-back of each such line, then one fence where there was such a line; and behind all of them the store of the next epoch,
//! its write-back and its fence. A room without such a line has no event.
//!
//! It keeps the rooms, in the order of their numbers, and how far the write of the next epoch has come (`EpochStage`); and room for what
//! its end makes, so that nothing but its begin takes memory. Which room is at work is not kept: the first one with an event left
//! does the next, and the rooms before it are saved by the same call. What a cut leaves in each state:
//!
//! - before the store of the next epoch: whatever is kept, the image's epoch, at which each room recovers to what it recovered to at
//!   the begin. So a recovery that was cut is begun again.
//! - while the store is pending: that epoch or the next. Every room is saved, and recovers at both to the same.
//! - behind the fence: the next epoch, acknowledged with the recovery's mark, which covers no entry.
//!
//! A contract sees the settings, the rooms and the stage (`RecoveryState`), and speaks of every life that resumes from the image
//! (`IsRecovery`); the recovery itself knows no script. Each call is one named function from the old state to the new one.
//!
//! Proved here: which events come, in which order, and how many; that behind each of them the memory is safe at a power cut; that few
//! lines are written back; that the report of a life that was cut in it tells of the life; from which place each thread goes on; and that the world at the end is one that each life of these scripts that resumes from the image opens
//! with. The steps need nothing of scripts but their lengths, at the end. Only tested: the words, the loads and the
//! counts behind each event of three images by hand. Neither proved nor tested: when the begin finds no memory.
#![tactic(auto)]

mod begin;
mod end;
mod epoch;
mod laws;
mod place;
mod recovery;
mod restores;

pub use epoch_word::EpochStage;
pub use laws::{
    recovery_goes_on_law, recovery_opens_law, recovery_safe_law, recovery_told_law,
    recovery_write_backs_law,
};
pub use place::place_in;
pub use recovery::{RecoverStep, Recovery};

#[cfg(test)]
mod tests;
