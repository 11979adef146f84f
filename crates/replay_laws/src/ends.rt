//! How a replay opens, and what the giving up of rooms behind its run leaves.

ghost use Rattle.replay_model.specs.Laws.{OpensReplayLaw, TurnsOffLaw, NoneHoldsLaw};

/// A replay opens with the yard of its world and a worker for each thread.
pub fn opens_law()
    ensures { OpensReplayLaw }
{}

/// Behind the giving up of a thread it holds no room, and the other views, the history and the checkpoints are as they were; once each has
/// given up, none holds one.
pub fn gives_up_laws()
    ensures one { TurnsOffLaw }
    ensures all { NoneHoldsLaw }
{}
