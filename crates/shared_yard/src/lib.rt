//! The yard of rooms that running threads share.
//!
//! The tick word, the clock, the arrival word and a lock for each room are atomic words of one table, and each room lies in a slot of
//! it, which the holder of the room's lock alone moves. A thread has a seat at the table. A `SharedPost` is a thread's handle: it has the
//! seat, and remembers of the thread's view what its calls answer. No call of a handle waits, and none takes memory. A yard is made of a
//! world, with a seat for each thread; once all seats are back it leaves a world again, and that takes no memory either.
//!
//! Each call is one atomic step of the yard, beside loads. What a step finds, and what it makes of the thread's own view:
//!
//! | Step | Word | How | The view |
//! |---|---|---|---|
//! | lock | lock of the room | compare and exchange of 0 with the thread's number and 1; then the slot is emptied | holds the room |
//! | unlock | lock of the room | the room is put into its slot; then swap with 0 | holds nothing |
//! | retreat | lock of the room | the room is put into its slot; then swap with 2^64 - 1 | holds nothing, and gave the room back |
//! | leave | arrival | load; then compare and exchange without the thread's bit | runs in the epoch that was shown |
//! | stand | arrival | or with the thread's bit | stands |
//! | draw | clock | add 1 | has the entry, at the place that was found |
//! | claim | arrival | load; then compare and exchange with the closing bit | closes |
//! | note | clock | load, the first half of a release | has noted the number of entries |
//! | release | arrival | swap with the word of the next epoch | stands, with a checkpoint more |
//! | look | any | a load, or an exchange that met another word | looked |
//! | power | tick | load | saw the power on, or off |
//! | tick | tick | add 1 | told of an event more |
//! | off | tick | the greater of it and 2^63 | turned the power off |
//!
//! Between any two steps of any threads the table keeps one rule (specs/`Rule`): with some history and some released checkpoints, its
//! words, its slots and the views at its seats make a lawful yard, and each seat has the views and the own checkpoints of its threads.
//! Which checkpoint is whose stands here alone, beside the views. A lock that is taken names its holder, so who takes a room out of a
//! slot has it alone. And where a thread's last look found that the life is over, it is over.
//!
//! A contract sees a thread's view and its own checkpoints; it is not told the yard's state, which other threads change at any time. A
//! handle's type names its yard, so that what comes out of a handle is a seat of that yard.
//!
//! Proved here: `SharedPost` keeps every contract of `Post`, each call by the law of its step, and none of it asks what other threads do
//! meanwhile. So a lock gives a room with all of the thread's own entries for it, each once and in order, free, and standing by its
//! loads for what its history leaves; `Held` and `Rest` come with the word that a look of that call found; a draw answers the place of
//! its entry in the one history; and `powered` gives false exactly at the limit. `new` makes a yard of any world with which a life may
//! open, in which each seat knows what its thread knows then, or gives the world back as it was. `close` leaves a world whose memory, two
//! words and numbers of rooms given back in mid-work are those of a lawful last state, in which each seat's view and own checkpoints stand.
//! Only tested: that memory suffices, and that two threads may share a yard.
#![tactic(auto)]

mod close;
mod emptied;
mod known;
mod name;
mod opening;
mod plays;
mod post;
mod rule;
mod seat;
mod shares;
mod start;
mod yard;

pub use known::Known;
pub use name::YardName;
pub use post::SharedPost;
pub use rule::{TableSeat, YardKey, YardRule, YardTable};
pub use seat::YardSeat;
pub use start::NoYard;
pub use yard::SharedYard;

#[cfg(test)]
mod tests;
