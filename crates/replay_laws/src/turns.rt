//! What a turn of one thread leaves.

ghost use Rattle.replay_model.specs.Laws.{TurnSetsOwnViewLaw, TurnKeepsCheckpointsLaw, TurnKeepsHistoryLaw, TurnKeepsReplayLaw};

/// Behind a turn the views are those before it, with the thread's own as it is now; the checkpoints are those before it, or one more, which its
/// worker then has; the history is that before it, or has one entry more, of the worker's next command; and a replay stays one.
pub fn turn_laws()
    ensures views { TurnSetsOwnViewLaw }
    ensures checkpoints { TurnKeepsCheckpointsLaw }
    ensures history { TurnKeepsHistoryLaw }
    ensures kept { TurnKeepsReplayLaw }
{}
