//! The laws of how much work a life does, of the lines that the stores of a command make pending, and of the rounds of a schedule.
//! Each is the contract of a function that does nothing.
ghost use Rattle.life_laws.specs.WorkLaws.{FlushedLittleLaw, LeastWorkLaw, MostWorkLaw, RoundRobinLaw, WorkerRoundsLaw, FewLinesLaw, NewlyPendingLaw};

/// Where each room's write-backs are few by its own entries, those of all rooms are few.
pub fn flushed_little_law()
    ensures { FlushedLittleLaw }
{}

/// What all workers have done is at least what their entries and marks ask for.
pub fn least_work_law()
    ensures { LeastWorkLaw }
{}

/// What all workers have done is at most what their entries, epochs and closings allow.
pub fn most_work_law()
    ensures { MostWorkLaw }
{}

/// A schedule that names all threads in turn offers a round for each time through them.
pub fn round_robin_law()
    ensures { RoundRobinLaw }
{}

/// How many rounds the turns of the workers offer, at a start and at a resume.
pub fn worker_rounds_law()
    ensures { WorkerRoundsLaw }
{}

/// The stores of a command make at most four lines pending, whichever lines are pending before.
pub fn few_lines_law()
    ensures { FewLinesLaw }
{}

/// The lines that have a store that was not asked for, and those that stores to come are the first to give one, are together as many
/// after a store as before it.
pub fn newly_pending_law()
    ensures { NewlyPendingLaw }
{}
