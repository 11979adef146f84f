//! How a life goes on.

ghost use Rattle.yard_progress.specs.Laws.{OpensShownLaw, OpensGoingLaw, ReleasesGoingLaw, TakelessEntryLaw};

/// A life opens with hands that show its progress.
pub fn opens_shown_law()
    ensures { OpensShownLaw }
{}

/// A life that opens and is not over goes on.
pub fn opens_going_law()
    ensures { OpensGoingLaw }
{}

/// So does one whose epoch was released.
pub fn releases_going_law()
    ensures { ReleasesGoingLaw }
{}

/// Where a thread closes in a life without a take, an entry was drawn since the last checkpoint.
pub fn takeless_entry_law()
    ensures { TakelessEntryLaw }
{}
