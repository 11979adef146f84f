//! Laws on what a start begins with, the contract of a function that does nothing.

ghost use Rattle.fresh_world.specs.Start.{StartOpeningLaw, StartBeginsLaw};

/// What the world of a start begins with is how a start of these settings and scripts begins, and all that is asked of a beginning
/// holds of it where there is one script for each thread.
pub fn start_laws()
    ensures opening { StartOpeningLaw }
    ensures beginning { StartBeginsLaw }
{}
