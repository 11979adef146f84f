//! What a step finds in a lawful world, and bounds of its words.
ghost use Rattle.yard_model.specs.Laws.{TickFitsLaw, EpochFitsLaw, CloserFindsFreeLaw, LockGivesLaw, DrawFitsLaw, ArrivalShowsLaw};

/// The tick word never wraps.
pub fn tick_fits_law()
    ensures { TickFitsLaw }
{}

/// The epoch stays in range, while it is closed too.
pub fn epoch_fits_law()
    ensures { EpochFitsLaw }
{}

/// A thread that closes finds its next room free.
pub fn closer_finds_free_law()
    ensures { CloserFindsFreeLaw }
{}

/// Where a room's lock is 0 the room is at home, and lock may tell this of it.
pub fn lock_gives_law()
    ensures { LockGivesLaw }
{}

/// The clock stays in range.
pub fn draw_fits_law()
    ensures { DrawFitsLaw }
{}

/// An arrival word that is made shows what it was made of.
pub fn arrival_shows_law()
    ensures { ArrivalShowsLaw }
{}
