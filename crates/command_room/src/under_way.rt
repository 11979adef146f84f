//! A command that was begun. Its reply is settled when it begins, since the stores that follow change nothing of it.

use seq_object::{Command, Reply};

/// A command that is under way, and its reply.
#[derive(Clone, Copy, Debug, PartialEq, Eq)]
pub struct UnderWay {
    /// The command, which was begun in this room.
    pub command: Command,
    /// The sequential object's reply to it, by what the room held when it began.
    pub reply: Reply,
}
