//! Runs of which each state is a replay.

ghost use Rattle.replay_progress.specs.Laws.{KeptRunsLaw, KeptRunGoesOnLaw, KeptRunStaysLaw};

/// They are runs.
pub fn kept_runs_law()
    ensures { KeptRunsLaw }
{}

/// Such a run goes on with one turn more.
pub fn kept_run_goes_on_law()
    ensures { KeptRunGoesOnLaw }
{}

/// Once it is over, no further turn changes it.
pub fn kept_run_stays_law()
    ensures { KeptRunStaysLaw }
{}
