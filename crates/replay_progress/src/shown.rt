//! The progress of a replay, state by state and over a run.

ghost use Rattle.replay_progress.specs.Laws.{HandsShownLaw, OpensRightLaw, RunIsShownLaw};

/// A replay that goes on right shows hands.
pub fn hands_shown_law()
    ensures { HandsShownLaw }
{}

/// A replay that opens goes on right.
pub fn opens_right_law()
    ensures { OpensRightLaw }
{}

/// A run of a replay is a run of its progress.
pub fn run_is_shown_law()
    ensures { RunIsShownLaw }
{}
