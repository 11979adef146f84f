//! Laws of a recovery, each the contract of a function that does nothing.

ghost use Rattle.recovery.specs.Laws.{RecoverySafeLaw, RoomsOpenLaw, RecoveryOpensLaw, WriteBacksKeptLaw, WriteBacksTotalLaw, WriteBacksCountLaw, RecoveryGoesOnLaw};
ghost use Rattle.recovery.specs.Told.{RecoveryCountsLittleLaw, CutIsToldLaw};

/// Behind each event of a recovery the memory is safe at a power cut.
pub fn recovery_safe_law()
    ensures { RecoverySafeLaw }
{}

/// At the end each room is one that a resumed life opens with, and the world with the ends told is one that it opens with.
pub fn recovery_opens_law()
    ensures rooms { RoomsOpenLaw }
    ensures world { RecoveryOpensLaw }
{}

/// The write-backs of a recovery are few.
pub fn recovery_write_backs_law()
    ensures kept { WriteBacksKeptLaw }
    ensures all { WriteBacksTotalLaw }
    ensures count { WriteBacksCountLaw }
{}

/// Each event of a recovery is one fewer that is left.
pub fn recovery_goes_on_law()
    ensures { RecoveryGoesOnLaw }
{}

/// The rooms of a recovery count few write-backs, where the memory that was handed over had counted none; and the report of a life that was cut
/// in it tells of the life.
pub fn recovery_told_law()
    ensures counts { RecoveryCountsLittleLaw }
    ensures cut { CutIsToldLaw }
{}
