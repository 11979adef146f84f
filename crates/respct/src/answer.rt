//! What the part of the program that always returns answers.

use crate::status::Status;

/// The answer of the part of the program that starts no thread.
#[derive(Clone, Copy, Debug, PartialEq, Eq)]
pub enum PlainAnswer {
    /// The call has ended with this status.
    Ended(Status),
}
