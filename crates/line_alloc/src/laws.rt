//! Laws on headers, each the contract of a function that does nothing. They give the layers above what the calls ask of a
//! header, wherever a room stands for something.

ghost use Rattle.line_alloc.specs.Laws.{MapHasHeaderLaw, QueueHasHeaderLaw};

/// Each room that stands for pairs or for items has a header as the calls ask for it.
pub fn header_laws()
    ensures map { MapHasHeaderLaw }
    ensures queue { QueueHasHeaderLaw }
{}
