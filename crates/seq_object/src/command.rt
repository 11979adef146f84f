//! Commands, and what the object replies to them.
//!
//! Keys, values and items are any numbers of 64 bits. What a command changes is said once, in
//! specs/Object, and not by these types.

/// A command on the map or on the queue.
#[derive(Clone, Copy, Debug, PartialEq, Eq)]
pub enum Command {
    /// Sets the value of a key: key and value.
    Put(u64, u64),
    /// Asks for the value of a key.
    Get(u64),
    /// Removes a key.
    Del(u64),
    /// Appends an item at the back of the queue.
    Enq(u64),
    /// Removes the item at the front of the queue.
    Deq,
    /// Removes the item at the front of the queue, and waits where there is none.
    Take,
}

/// What the object replies to a command.
#[derive(Clone, Copy, Debug, PartialEq, Eq)]
pub enum Reply {
    /// The key is new, and has the value now.
    New,
    /// The key had this value, and has the new one now.
    Old(u64),
    /// There is no room; nothing changed.
    Full,
    /// The value of the key, or the item that was removed.
    Found(u64),
    /// The key had this value, and is removed.
    Gone(u64),
    /// The key is not there.
    Absent,
    /// The item is appended.
    Done,
    /// The queue has no item.
    Empty,
}
