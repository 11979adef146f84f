//! Laws on the arrival word and on thread rooms, each the contract of a function that does nothing.

ghost use Rattle.restart_point.specs.Laws.{SaidLaw, MadeLaw, NoOtherBitsLaw, ThreadKeptLaw, ThreadSavedLaw, UnwrittenLaw};

/// A word and what it says fix each other, where bits 19 to 31 are 0.
pub fn arrival_laws()
    ensures said { SaidLaw }
    ensures made { MadeLaw }
    ensures bits { NoOtherBitsLaw }
{}

/// Whatever a cut keeps of a thread's room, it leaves what memory holds of it; of a room that was saved, each later epoch
/// has what loads give, and in a later epoch that is entered the position may be written.
pub fn thread_laws()
    ensures kept { ThreadKeptLaw }
    ensures saved { ThreadSavedLaw }
    ensures unwritten { UnwrittenLaw }
{}
