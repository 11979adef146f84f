//! Laws on workers, each the contract of a function that does nothing.

ghost use Rattle.worker_model.specs.Laws.{StaysBehindPowerLaw, StaysBehindTickLaw, StaysBehindOffLaw, WorkedLaw};

/// A look at the power, a tick, and turning the power off leave a worker as it was.
pub fn stays_laws()
    ensures power { StaysBehindPowerLaw }
    ensures tick { StaysBehindTickLaw }
    ensures off { StaysBehindOffLaw }
{}

/// What a worker has done lies between the least and the most of a life's work, by its entries, its checkpoints and its epochs.
pub fn worked_law()
    ensures { WorkedLaw }
{}
