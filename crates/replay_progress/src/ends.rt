//! Whole schedules.

ghost use Rattle.replay_progress.specs.Laws.{TakelessReplayEndsLaw, ReplayEndsLaw, ReplayClosesSeldomLaw};

/// Where no script has a take, enough rounds end a replay.
pub fn takeless_replay_ends_law()
    ensures { TakelessReplayEndsLaw }
{}

/// Where one has, more rounds do.
pub fn replay_ends_law()
    ensures { ReplayEndsLaw }
{}

/// A replay closes seldom.
pub fn replay_closes_seldom_law()
    ensures { ReplayClosesSeldomLaw }
{}
