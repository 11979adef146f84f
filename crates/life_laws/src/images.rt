//! The laws of images: what a power cut leaves of a memory, and the state that it recovers to.
//! Each is the contract of a function that does nothing.
ghost use Rattle.life_laws.specs.ImageLaws.{LinesLeftLaw, SameChoiceLaw, OneStateLaw, QuietLaw, StandsLaw, NextEpochLaw, RoomStandsLaw, FormattedRecoversLaw};

/// An image has the rooms and lines of its memory, and each line is what the choice leaves of it.
pub fn lines_left_law()
    ensures { LinesLeftLaw }
{}

/// Choices that keep the same of each line leave one image.
pub fn same_choice_law()
    ensures { SameChoiceLaw }
{}

/// An image recovers to one state, whatever the layout of map rooms.
pub fn one_state_law()
    ensures { OneStateLaw }
{}

/// Where nothing is pending every choice leaves what memory holds.
pub fn quiet_law()
    ensures { QuietLaw }
{}

/// Whatever is left of a memory that stands at an epoch for a state recovers to that state, if the epoch is left.
pub fn stands_law()
    ensures { StandsLaw }
{}

/// Cells with nothing pending stand at the next epoch for what their loads say.
pub fn next_epoch_law()
    ensures { NextEpochLaw }
{}

/// A room that stands for what its own entries leave stands for its part of what the history leaves.
pub fn room_stands_law()
    ensures { RoomStandsLaw }
{}

/// A formatted image recovers to the first state, and its epoch is 1.
pub fn formatted_recovers_law()
    ensures { FormattedRecoversLaw }
{}
