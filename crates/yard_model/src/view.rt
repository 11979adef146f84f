//! What a thread knows of the yard. But for what a life begins with and for checkpoints no value of these types is made: contracts speak
//! of them.

use life_model::{Life, Mark};
use restart_point::ThreadEnd;
use seq_object::{Command, Noted, RestartPoint, Settings};
use std::collections::LinkedList;

/// Where a thread is: at its restart point, at its commands, or closing an epoch, in which all other threads stand.
#[derive(Clone, Copy, Debug, PartialEq, Eq)]
pub enum Phase {
    Standing,
    Running,
    Closing,
}

/// What a life begins with. It never changes, and each thread knows it. It is read off the world that the life opens with.
#[derive(Drop)]
pub struct Beginning {
    pub settings: Settings,
    /// One list of commands for each thread.
    pub scripts: LinkedList<LinkedList<Command>>,
    pub life: Life,
    /// The epoch of the image that the life resumes from, and 1 at a start.
    pub epoch: u32,
    /// The keys of the map with their values.
    pub pairs: LinkedList<(u64, u64)>,
    /// The items of the queue, from front to back.
    pub items: LinkedList<u64>,
    /// Where each thread goes on.
    pub points: LinkedList<RestartPoint>,
    /// The power is off where the tick word is at least this.
    pub limit: u64,
    /// The number of write-backs of each room.
    pub write_backs: LinkedList<u64>,
}

/// What is known of a thread's room as it was taken.
#[derive(Drop)]
pub struct TakenPosition {
    /// The restart point that it loads.
    pub point: RestartPoint,
    /// The restart point that memory has of it at the epoch.
    pub in_memory: RestartPoint,
    pub end: ThreadEnd,
}

/// A room in hand, as it was taken.
#[derive(Drop)]
pub struct Grip {
    /// The room's number.
    pub room: u32,
    /// The entries of its commands that were done.
    pub history: LinkedList<Noted>,
    /// How many of these entries the last checkpoint covers.
    pub covered: u64,
    /// Where it is a thread's room.
    pub position: Option<TakenPosition>,
    /// The entry that was drawn since.
    pub drawn: Option<Noted>,
}

/// A room that was given back in mid-work, when the power was off.
#[derive(Clone, Copy, Debug, PartialEq, Eq)]
pub struct GivenBack {
    /// The room's number.
    pub room: u32,
    /// Whether an entry had been drawn under its lock.
    pub drew: bool,
}

/// What a thread that closes an epoch has done and learnt.
#[derive(Drop)]
pub struct Closed {
    /// How many rooms are done. They are done in the order of their numbers.
    pub rooms: u32,
    /// Whether the queue has an item, once the queue room is done.
    pub fed: Option<bool>,
    /// The end of each thread whose room is done.
    pub ends: LinkedList<ThreadEnd>,
    /// The number of entries drawn, once it is noted.
    pub entries: Option<u64>,
}

/// A word of the yard with the value that a look found in it.
#[derive(Clone, Copy, Debug, PartialEq, Eq)]
pub struct Look {
    /// The word's number.
    pub word: u64,
    pub found: u64,
}

/// What one thread knows.
#[derive(Drop)]
pub struct View {
    pub beginning: Beginning,
    /// The thread's number, from 0.
    pub thread: u32,
    pub phase: Phase,
    /// How many commands it may still draw in the epoch in which it last ran.
    pub quota: u32,
    /// The epoch in which it last ran, 0 where it has not run.
    pub ran: u32,
    /// Whether its own room was written in that epoch.
    pub wrote: bool,
    /// Whether it found the queue empty in that epoch.
    pub found_empty: bool,
    /// The room that it holds.
    pub grip: Option<Grip>,
    /// The room that it gave back in mid-work.
    pub given_back: Option<GivenBack>,
    /// Its own entries with their places in the history.
    pub own: LinkedList<Noted>,
    /// How many checkpoints it released.
    pub checkpoints: u32,
    /// The epoch that its last checkpoint began, 0 where it released none.
    pub last_checkpoint: u32,
    /// How many events it told the tick word of.
    pub ticks: u64,
    /// How often it looked. The count stands still at its type's end.
    pub looks: u64,
    /// The last look.
    pub look: Look,
    /// Whether it saw the power on since its last tick.
    pub saw_on: bool,
    /// Whether it saw the power off.
    pub saw_off: bool,
    /// Whether it turned the power off.
    pub called_off: bool,
    /// Nothing done and nothing learnt while it does not close.
    pub closed: Closed,
}

/// A checkpoint that was released: how many entries it covers, and whether the life ended with it.
#[derive(Clone, Copy, Debug, PartialEq, Eq)]
pub struct Checkpoint {
    pub length: u64,
    pub over: bool,
}

/// A checkpoint that a thread itself released, with the epoch that it began.
#[derive(Clone, Copy, Debug, PartialEq, Eq)]
pub struct OwnMark {
    pub mark: Mark,
    /// Whether the life ended with it.
    pub over: bool,
}
