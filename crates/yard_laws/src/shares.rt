//! What threads and rooms have of a history, and threads of the checkpoints, fixes the whole.
ghost use Rattle.yard_model.specs.Shares.{OneHistoryLaw, ThreadsHaveOneHistoryLaw, RoomsHaveOneHistoryLaw, OneCheckpointsLaw};

/// The entries that some tests pick, with their places, fix the history where each entry is picked: so do the entries of all
/// threads, and those of all rooms of commands.
pub fn one_history_law()
    ensures picked { OneHistoryLaw }
    ensures threads { ThreadsHaveOneHistoryLaw }
    ensures rooms { RoomsHaveOneHistoryLaw }
{}

/// The own checkpoints of all threads, with their epochs, fix the checkpoints of the life.
pub fn one_checkpoints_law()
    ensures { OneCheckpointsLaw }
{}
