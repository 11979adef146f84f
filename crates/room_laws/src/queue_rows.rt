//! The rows of the table of writes in the queue room. A room that stands for items stands behind a row's writes for the items that the
//! sequential object has next.

ghost use Rattle.room_laws.specs.QueueRows.{EnqLaw, QueueFullLaw, DeqLaw, DeqEmptyLaw};

/// An item at the back where a line is left, of an empty queue or not.
pub fn enq_law()
    ensures { EnqLaw }
{}

/// No line is left exactly where the queue has as many items as it can hold.
pub fn queue_full_law()
    ensures { QueueFullLaw }
{}

/// The front item taken off, by a deq or a take, where a line is first: the node becomes the first free line, and its value was the
/// front item.
pub fn deq_law()
    ensures { DeqLaw }
{}

/// Where no line is first, there is no item.
pub fn deq_empty_law()
    ensures { DeqEmptyLaw }
{}
