//! Modes: which thread has which turn of a run, or how long running threads go on.
//! A mode is one line of a script.

/// Which thread has which turn.
#[derive(Debug, Drop)]
pub enum Mode {
    /// So many turns, round and round through the threads from thread 0 on; at most 10,000,000.
    RoundRobin(u32),
    /// So many turns, at most 10,000,000, whose threads are drawn by the seed that stands first.
    Seeded(u64, u32),
    /// A turn for each thread of the list, in order; at most 10,000,000.
    Listed(Vec<u32>),
    /// Threads that run by themselves, until so many events are done; at most 10,000,000.
    Live(u32),
}
