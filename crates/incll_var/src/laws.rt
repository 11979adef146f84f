//! Laws on cells, plans and restores, each the contract of a function that does nothing.

ghost use Rattle.incll_var.specs.Laws.{StoredLoadsLaw, StoredBehindLaw, NoPlanLaw, OneLinePlacesLaw, FiveStoresLaw, RecoverableLaw, OneRoomLaw, SavedRecoverableLaw, SavedRoomLaw, SavedPendingLaw, RestoredCountLaw, RestoringRoomLaw, RestoredRoomLaw, LaterRoomLaw, RestoreAsksLaw, RestoreWriteBacksLaw};

/// What a store does to the loads: it changes one word of the room, and nothing of the room behind all planned stores.
pub fn plan_laws()
    ensures loads { StoredLoadsLaw }
    ensures stored { StoredBehindLaw }
{}

/// What is owed for an empty plan, and for a plan of stores to one line; and how many stores a write has at most.
pub fn room_laws()
    ensures nothing { NoPlanLaw }
    ensures one_line { OneLinePlacesLaw }
    ensures five { FiveStoresLaw }
{}

/// Whatever a cut keeps of cells, at the epoch of their state it leaves the room that memory holds.
pub fn survivor_laws()
    ensures kept { RecoverableLaw }
    ensures room { OneRoomLaw }
{}

/// Nothing is pending on cells that were saved; whatever a cut keeps of them, at every later epoch it leaves the room by loads.
pub fn saved_laws()
    ensures pending { SavedPendingLaw }
    ensures kept { SavedRecoverableLaw }
    ensures room { SavedRoomLaw }
{}

/// Wherever a restore is cut, and whatever the cut keeps, it leaves the room that memory held; at the end this is the room
/// by loads, and the one that a cut leaves at every later epoch.
pub fn restore_laws()
    ensures count { RestoredCountLaw }
    ensures cut { RestoringRoomLaw }
    ensures restored { RestoredRoomLaw }
    ensures later { LaterRoomLaw }
{}

/// A restore writes back each line that is tagged with its epoch, once, and no other line: so many of its events are
/// write-backs, and by so many the count of the bank's write-backs rises.
pub fn restore_write_back_laws()
    ensures events { RestoreAsksLaw }
    ensures count { RestoreWriteBacksLaw }
{}
