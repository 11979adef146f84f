//! Laws on rooms in hand, each the contract of a function that does nothing.

ghost use Rattle.room_in_hand.specs.InHand.{shut, writing_epoch};
ghost use Rattle.room_in_hand.specs.Laws.{GivenRestsLaw, GivenEpochLaw, MayGoHomeLaw, MayBeGivenUpLaw, RestsGoesHomeLaw, PointGoesHomeLaw, RunnerGivesUpLaw, DrawnKnowsLaw};

use epoch_word::EpochStage;

/// What lock gives is in hand: a room of cells rests, and the super room has no write begun.
pub fn given_laws()
    ensures cells { GivenRestsLaw }
    ensures epoch { GivenEpochLaw }
{}

/// What is in hand may be given back: in a closing a room that is in memory goes home, and whatever is under way in it, it may
/// be given up where the power was seen off.
pub fn return_laws()
    ensures cells { MayGoHomeLaw shut }
    ensures epoch { MayGoHomeLaw (writing_epoch EpochStage.InMemory) }
    ensures given_up { MayBeGivenUpLaw }
{}

/// A thread that runs may give a room of commands back that rests, and its own once its restart point is written; where the power was
/// seen off it may give its room up whatever is under way in it. And what it knows of its room once an entry is drawn.
pub fn running_laws()
    ensures rests { RestsGoesHomeLaw }
    ensures point { PointGoesHomeLaw }
    ensures given_up { RunnerGivesUpLaw }
    ensures drawn { DrawnKnowsLaw }
{}
