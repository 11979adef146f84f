//! Replays: a script carried out in the stated interleaving of its threads, as a start over formatted memory, or as a resume over memory that
//! a power cut left.
//!
//! A replay is a yard and a worker for each thread. The turns go to the threads that the schedule names, one event or rest each, until the
//! arrival word shows that the life is over, or the turns are spent, or memory runs out. Then each thread's power is turned off, its worker
//! gives up what it has in hand, and the yard is taken apart: what is left is the memory and the report. The first turns of a resume are the
//! events of its recovery, whichever threads they name. Where they are spent before it is finished, the memory is left as the recovery has it;
//! else its rooms become the yard, and the threads go on from their places in the image.
//!
//! A contract sees a replay as the yard's whole state and the workers (`replay_model`), and a recovery as its rooms and stage. Proved here:
//! that each turn is the one of the table of a turn for that thread, and changes nothing else; that the report and the memory are those of the
//! state in which this run ends, for every schedule and number of turns; and that the report tells of the life: it is legal, it ends as told,
//! memory is safe at every power cut, the rooms that are not named stand by their loads, and few lines were written back; that enough rounds of the
//! schedule end it; and that it closes seldom.
#![tactic(auto)]

mod ending;
mod opening;
mod recovering;
mod replay;
mod resuming;
mod run;
mod whole;

pub use whole::replay_job;

#[cfg(test)]
mod resume_tests;
#[cfg(test)]
mod tests;
