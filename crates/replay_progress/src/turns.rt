//! What a turn of one thread is in the progress of a replay.

ghost use Rattle.replay_progress.specs.Laws.{TurnIsShownLaw, RefusedTurnLaw};

/// Each turn of a replay that goes on right, is not over and meets no want of memory is a turn of its progress; and it goes on right.
pub fn turn_is_shown_law()
    ensures { TurnIsShownLaw }
{}

/// A turn that meets want of memory changes neither the entries nor the checkpoints.
pub fn refused_turn_law()
    ensures { RefusedTurnLaw }
{}
