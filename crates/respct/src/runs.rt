//! The law on runs of the program that follow one another.
//! It is the contract of a function that does nothing.

ghost use Rattle.respct.specs.Runs.{RunsLaw};

/// A start and resumes under its name, each over what the run before kept, lead lives each of which resumes from an image that the one before
/// left. So what is proved of every list of lives holds of them.
pub fn runs_law()
    ensures { RunsLaw }
{}
