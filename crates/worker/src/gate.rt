//! What a thread passes before each of its commands.

/// A place that a worker passes before the lock of each command's room is first tried. A test of threads that run makes them wait for one
/// another here.
pub trait Gate {
    /// The thread passes with the command at this place of its script.
    fn pass(&self, thread: u32, index: u32);
}

/// A gate that holds nobody up.
#[derive(Clone, Copy, Debug, PartialEq, Eq)]
pub struct NoGate;

impl Gate for NoGate {
    fn pass(&self, _thread: u32, _index: u32) {}
}
