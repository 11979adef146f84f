//! How seldom an epoch is closed.

ghost use Rattle.rounds.specs.Laws.{SeldomLaw, TakesLaw, TakelessClosingsLaw, ClosingsLaw};

/// Each event keeps that each closing has an entry, where no thread takes.
pub fn seldom_law()
    ensures { SeldomLaw }
{}

/// Each event keeps that each closing has an entry, or that a thread that was ready waits behind it.
pub fn takes_law()
    ensures { TakesLaw }
{}

/// Without a take the closings are at most one for each entry.
pub fn takeless_closings_law()
    ensures { TakelessClosingsLaw }
{}

/// The closings are at most two for each entry and one for each thread.
pub fn closings_law()
    ensures { ClosingsLaw }
{}
