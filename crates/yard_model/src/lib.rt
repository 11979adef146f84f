//! What a yard of rooms under locks is as plain data: what each thread knows of it, when it is lawful, and what each kind of step
//! makes of it.
//!
//! A yard is the rooms of a memory, a lock for each, and three words in which threads meet: the tick word counts events, the clock
//! entries, and the arrival word shows who stands, who closes, and the epoch. The crate has no code. It has the types of what a thread
//! knows, of which no value is made but of what a life begins with and of checkpoints, the enum of the kinds of rooms, and definitions in
//! specs/:
//!
//! - `Entries`, `Rooms`, `Beginnings`: entries with their places; what every room has; what a life begins with, and what a history and
//!   the released checkpoints make of it.
//! - `Knows`, `World`, `Dead`: what a view says of its thread; the words, rooms and views; a room that was given back in mid-work.
//! - `Locks`, `Epochs`, `Homes`, `Positions`, `Closings`: the facts on one view or one room: what a view holds and has drawn, its epoch
//!   and counts, what is known of a room at home, a thread's room, and what a closing has learnt.
//! - `Lawful`: the lawful world that consists of them, part by part. Between any two steps of any threads a yard is lawful.
//! - `Views`, `Steps`, `Conditions`: for each kind of step the view after, the world after, and the condition, which speaks of the view,
//!   of the room that is handed in and of the word found, and never of the history.
//! - `Laws`, `Opens`: the statements of the laws that steps keep the lawful world, and that a life opens with one.
//! - `Lives`, `Outcomes`, `WriteBacks`, `Shares`: what a lawful world says of its life: that it is legal and safe, how it ends, how little it
//!   wrote back, and that the shares of threads and rooms make up the history and the checkpoints.
//!
//! Nothing is proved here. The laws are proved beside this crate, and that code makes these steps in the crates above.
#![tactic(auto)]

mod view;

pub use rooms::Room;
pub use view::{
    Beginning, Checkpoint, Closed, GivenBack, Grip, Look, OwnMark, Phase, TakenPosition, View,
};
