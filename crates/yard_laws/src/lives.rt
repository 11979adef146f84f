//! What a lawful world says of its life.
ghost use Rattle.yard_model.specs.Lives.{EpochNowLaw, LifeIsLegalLaw, LifeIsSafeLaw, LifeIsPresentLaw, LifeClosesOncePerEntryLaw, LifeTicksLittleLaw};
ghost use Rattle.yard_model.specs.Outcomes.{LifeEndsLaw, FinishedIsOverLaw, OverIsLastLaw, NoneWaitsWithoutTakeLaw};
ghost use Rattle.yard_model.specs.WriteBacks.{LifeFlushesLittleLaw, FewAreWrittenLaw, MemoryCountsLaw};

/// The epoch that runs, as the yard counts it, is the one behind the life's marks.
pub fn epoch_now_law()
    ensures { EpochNowLaw }
{}

/// The life is legal.
pub fn legal_law()
    ensures { LifeIsLegalLaw }
{}

/// Whatever a power cut keeps of its memory, the image recovers to what the epoch write in it saved.
pub fn safe_law()
    ensures { LifeIsSafeLaw }
{}

/// The loads are what the history leaves, but for rooms that were given back in mid-work.
pub fn present_law()
    ensures { LifeIsPresentLaw }
{}

/// A life ends as its yard shows: finished where it is over and no thread waits, stalled where it is over and one waits, and
/// not finished where it is not over.
pub fn life_ends_law()
    ensures ends { LifeEndsLaw }
    ensures over { FinishedIsOverLaw }
    ensures last { OverIsLastLaw }
{}

/// Its closings are few where its scripts have no take, and its events are few.
pub fn few_closings_law()
    ensures closings { LifeClosesOncePerEntryLaw }
    ensures ticks { LifeTicksLittleLaw }
{}

/// Where the scripts have no take, no thread waits at the end.
pub fn none_waits_law()
    ensures { NoneWaitsWithoutTakeLaw }
{}

/// The write-backs are few, and no room's count is below the one at the beginning.
pub fn flushes_little_law()
    ensures { LifeFlushesLittleLaw }
{}

/// The write-backs are few at every turn, also while rooms are in hand.
pub fn few_written_law()
    ensures { FewAreWrittenLaw }
{}

/// The count of a memory is the sum of its rooms' counts.
pub fn memory_counts_law()
    ensures { MemoryCountsLaw }
{}
