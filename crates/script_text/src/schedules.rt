//! The laws of schedules, each the contract of a function that does nothing.
ghost use Rattle.script_text.specs.Schedules.{TurnCountLaw, ThreadsNamedLaw, TurnLaw};

/// A schedule has as many threads as there are turns.
pub fn turn_count_law()
    ensures { TurnCountLaw }
{}

/// A schedule of turns within their limits names threads below their number.
pub fn threads_named_law()
    ensures { ThreadsNamedLaw }
{}

/// Which thread has turn k.
pub fn turn_law()
    ensures { TurnLaw }
{}
