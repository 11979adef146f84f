//! How many rounds end a life.

ghost use Rattle.rounds.specs.Laws.{EndsLaw, EndsTakesLaw};

/// Without a take a schedule that offers so many rounds ends the life.
pub fn ends_law()
    ensures { EndsLaw }
{}

/// With a take a schedule that offers more rounds ends it.
pub fn ends_takes_law()
    ensures { EndsTakesLaw }
{}
