//! The progress of a lawful yard.

ghost use Rattle.yard_progress.specs.Laws.{SoundLaw, HolderLaw, RestShownLaw};

/// A lawful yard and its threads' hands show a sound progress.
pub fn sound_law()
    ensures { SoundLaw }
{}

/// Where a running thread finds a lock taken, some thread runs and holds a room.
pub fn holder_law()
    ensures { HolderLaw }
{}

/// A thread at its restart point, whose leave and claim are refused, rests.
pub fn rest_shown_law()
    ensures { RestShownLaw }
{}
