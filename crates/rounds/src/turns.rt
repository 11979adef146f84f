//! What one turn of a thread comes to.

ghost use Rattle.rounds.specs.Laws.{ProgressLaw, SpendsLaw, SpentLaw, RanLaw, WaitsLaw};

/// Where a life is not over the turn of some thread makes an event, whenever it comes.
pub fn progress_law()
    ensures { ProgressLaw }
{}

/// Each event spends one more.
pub fn spends_law()
    ensures { SpendsLaw }
{}

/// So much is spent at most.
pub fn spent_law()
    ensures { SpentLaw }
{}

/// Behind an event that releases nothing its thread ran in the epoch that runs.
pub fn ran_law()
    ensures { RanLaw }
{}

/// Each event keeps that a thread waits where it stands without an entry of the epoch.
pub fn waits_law()
    ensures { WaitsLaw }
{}
