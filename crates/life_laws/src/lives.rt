//! The laws of lists of lives.
//! Each is the contract of a function that does nothing.
ghost use Rattle.life_laws.specs.LivesLaws.{KeptLaw, AcknowledgedLaw, FirstLifeLaw, NextLifeLaw, LivesLaw, AllDoneLaw};

/// Whatever a power cut leaves recovers to the state after the kept prefix.
pub fn kept_law()
    ensures { KeptLaw }
{}

/// No acknowledged epoch write is lost.
pub fn acknowledged_law()
    ensures { AcknowledgedLaw }
{}

/// What a start leaves holds what it kept.
pub fn first_life_law()
    ensures { FirstLifeLaw }
{}

/// What a resumed life leaves holds what its image held, and then what it kept.
pub fn next_life_law()
    ensures { NextLifeLaw }
{}

/// What a list of lives leaves holds the kept prefixes, joined in order.
pub fn lives_law()
    ensures { LivesLaw }
{}

/// Where the last life is finished, what is kept has each command of each thread once.
pub fn all_done_law()
    ensures { AllDoneLaw }
{}
