//! Laws on closers, each the contract of a function that does nothing.

ghost use Rattle.coordinator.specs.Laws.{MostEventsLaw, LeastEventsLaw, StaysBehindPowerLaw, StaysBehindTickLaw};

/// How many events a closing has on all its rooms.
pub fn count_laws()
    ensures most { MostEventsLaw }
    ensures least { LeastEventsLaw }
{}

/// A look at the power and a tick leave a closer as it was.
pub fn stays_laws()
    ensures power { StaysBehindPowerLaw }
    ensures tick { StaysBehindTickLaw }
{}
