//! The sizes of a memory, their limits, and the rooms that they fix: how many there are, which number each kind has, and how
//! many lines.
//!
//! Rooms are numbered from 0: the shards' map rooms, the queue room, one room for each thread, and the super room.

/// The greatest number of threads.
pub const MOST_THREADS: u32 = 16;

/// The greatest number of shards.
pub const MOST_SHARDS: u32 = 8;

/// The least number of lines of a map room and of the queue room.
pub const LEAST_LINES: u32 = 16;

/// The greatest number of lines of a room.
pub const MOST_LINES: u32 = 65_536;

/// The sizes of a memory.
#[derive(Clone, Copy, Debug, PartialEq, Eq)]
pub struct Sizes {
    /// How many threads there are, from 1 to 16.
    pub threads: u32,
    /// How many shards the map has, each in a room of its own, from 1 to 8.
    pub shards: u32,
    /// How many lines each map room and the queue room have, from 16 to 65,536.
    pub lines: u32,
}

impl Sizes {
    ghost use Rattle.std.specs.Prelude.{IsTrue, ◌↔◌, ◌≡◌, ◌<◌};
    ghost use Rattle.seq_object.specs.Sizes.{AreValid, are_valid, map_capacity, queue_capacity, queue_room, thread_room, super_room, room_count, line_count, line_total};

    /// Whether each of these numbers is within its limits, the limits themselves included.
    pub fn valid(self) -> bool
        ensures limits { IsTrue result ↔ AreValid self }
        ensures test { result ≡ are_valid self }
    {
        (1..=MOST_THREADS).contains(&self.threads)
            && (1..=MOST_SHARDS).contains(&self.shards)
            && (LEAST_LINES..=MOST_LINES).contains(&self.lines)
    }

    /// How many keys a shard can hold: its room has nine lines that are no nodes.
    pub fn map_capacity(self) -> u32
        requires { AreValid self }
        ensures { result ≡ map_capacity self }
    {
        self.lines - 9
    }

    /// How many items the queue can hold: its room has two lines that are no nodes.
    pub fn queue_capacity(self) -> u32
        requires { AreValid self }
        ensures { result ≡ queue_capacity self }
    {
        self.lines - 2
    }

    /// The number of the queue room. The map rooms stand before it, each with the number of its shard.
    pub fn queue_room(self) -> u32
        ensures { result ≡ queue_room self }
    {
        self.shards
    }

    /// The number of a thread's room, by the thread's number from 0.
    pub fn thread_room(self, thread: u32) -> u32
        requires valid { AreValid self }
        requires thread { thread < self.threads }
        ensures { result ≡ thread_room self thread }
    {
        self.shards + 1 + thread
    }

    /// The number of the super room, which is the last.
    pub fn super_room(self) -> u32
        requires { AreValid self }
        ensures { result ≡ super_room self }
    {
        self.shards + 1 + self.threads
    }

    /// How many rooms there are, from 4 to 26.
    pub fn room_count(self) -> u32
        requires { AreValid self }
        ensures { result ≡ room_count self }
    {
        self.shards + 2 + self.threads
    }

    /// How many lines a room has, by its number: a thread's room and the super room have one.
    pub fn lines_of(self, room: u32) -> u32
        ensures { result ≡ line_count self room }
    {
        if room <= self.shards { self.lines } else { 1 }
    }

    /// How many lines all rooms have together, from 34 to 589,841.
    pub fn line_total(self) -> u32
        requires { AreValid self }
        ensures { result ≡ line_total self }
    {
        (self.shards + 1) * self.lines + self.threads + 1
    }
}
