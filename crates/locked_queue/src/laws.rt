//! Laws on the queue room, each the contract of a function that does nothing.

ghost use Rattle.locked_queue.specs.Laws.{ItemsLaw, FullLaw};

/// The words of the queue room stand for the items that it holds, from front to back.
pub fn items_law()
    ensures { ItemsLaw }
{}

/// The queue room is full exactly where it has two items fewer than lines.
pub fn full_law()
    ensures { FullLaw }
{}
