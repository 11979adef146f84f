//! What is known at a seat of one thread.

use std::collections::LinkedList;
use yard_model::{OwnMark, View};

/// A thread's view, and the checkpoints that it released, in order. No value of it is made: it is what the table keeps beside its words.
#[derive(Drop)]
pub struct Known {
    pub view: View,
    pub own: LinkedList<OwnMark>,
}
