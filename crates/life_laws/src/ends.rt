//! The laws of how a life ends.
//! Each is the contract of a function that does nothing.
ghost use Rattle.life_laws.specs.EndLaws.{FinishedMarkLaw, StalledMarkLaw, FinishedOrNotLaw, FinishedEndLaw};

/// Where all scripts are used, a mark of all entries finishes a life.
pub fn finished_mark_law()
    ensures { FinishedMarkLaw }
{}

/// Where no thread can go on and one waits at the empty queue, a mark of all entries stalls a life.
pub fn stalled_mark_law()
    ensures { StalledMarkLaw }
{}

/// A life is finished or it is not.
pub fn finished_or_not_law()
    ensures { FinishedOrNotLaw }
{}

/// A finished life ends so, or starved.
pub fn finished_end_law()
    ensures { FinishedEndLaw }
{}
