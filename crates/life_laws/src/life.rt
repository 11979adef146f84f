//! The laws of one life: which steps keep it legal, and when its memory is safe at a power cut.
//! Each is the contract of a function that does nothing.
ghost use Rattle.life_laws.specs.LifeLaws.{OpeningLaw, OrderDrawLaw, OrderMarkLaw, DrawLaw, MarkLaw, RoomByRoomLifeLaw, BetweenLaw, MayMarkLaw, SavedDrawLaw, MarkedLaw, QuietSafeLaw, EpochSafeLaw, NextEpochSafeLaw, StartSafeLaw, ResumeSafeLaw};

/// A life may begin with no entry and no mark.
pub fn opening_law()
    ensures { OpeningLaw }
{}

/// What is in order stays so where an entry is drawn.
pub fn order_draw_law()
    ensures { OrderDrawLaw }
{}

/// What is in order stays so where all entries are marked.
pub fn order_mark_law()
    ensures { OrderMarkLaw }
{}

/// A legal life stays legal where an entry is drawn.
pub fn draw_law()
    ensures { DrawLaw }
{}

/// A legal life stays legal where all entries are marked.
pub fn mark_law()
    ensures { MarkLaw }
{}

/// A life that is legal room by room and in order is legal.
pub fn room_by_room_life_law()
    ensures { RoomByRoomLifeLaw }
{}

/// A thread's entries up to one length are those up to a lower one and those between.
pub fn between_law()
    ensures { BetweenLaw }
{}

/// All entries may be marked where each thread has none since the last mark, or all its quota but what a pause leaves.
pub fn may_mark_law()
    ensures { MayMarkLaw }
{}

/// What was covered stays so where an entry is drawn.
pub fn saved_draw_law()
    ensures { SavedDrawLaw }
{}

/// A mark of all entries covers them all, and the epoch is the next.
pub fn marked_law()
    ensures { MarkedLaw }
{}

/// A memory in which nothing is pending is safe where what it holds is what was covered.
pub fn quiet_safe_law()
    ensures { QuietSafeLaw }
{}

/// While the super room keeps the epoch, a memory is safe whose cells stand at it for what was covered.
pub fn epoch_safe_law()
    ensures { EpochSafeLaw }
{}

/// While the next epoch's store is pending, a memory is safe whose cells stand at both epochs.
pub fn next_epoch_safe_law()
    ensures { NextEpochSafeLaw }
{}

/// A start is safe before its first event.
pub fn start_safe_law()
    ensures { StartSafeLaw }
{}

/// A resume is safe before its first event.
pub fn resume_safe_law()
    ensures { ResumeSafeLaw }
{}
