//! Why a call on a source, a sink or an image store was refused. Each refusal has its cause in the contract of the call, but for want of
//! memory, which may come wherever memory is taken.

/// The object could not do it: the count of its faults rose in this call.
#[derive(Clone, Copy, Debug, PartialEq, Eq)]
pub struct Failed;

/// Why a sink or an image store refused.
#[derive(Clone, Copy, Debug, PartialEq, Eq)]
pub enum StoreRefusal {
    /// The object could not do it: the count of its faults rose in this call.
    Failed,
    /// There was no memory for it.
    OutOfMemory,
}

/// Why a source was not read to its end.
#[derive(Clone, Copy, Debug, PartialEq, Eq)]
pub enum ReadRefusal {
    /// The source could not be read: the count of its faults rose in this call.
    Failed,
    /// More bytes were taken than the limit allows.
    TooLong,
    /// There was no memory for the bytes.
    OutOfMemory,
}
