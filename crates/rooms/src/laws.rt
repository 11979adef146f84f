//! Laws on rooms of any kind, each the contract of a function that does nothing.

ghost use Rattle.rooms.specs.Laws.{CommandLinesLaw, OneLineLaw, OtherCellsLaw, SameNumberLaw, SameElseLaw};

/// How many lines a room has, by its number.
pub fn line_laws()
    ensures commands { CommandLinesLaw }
    ensures one { OneLineLaw }
{}

/// What a call that changes the cells of a room leaves of it: all else.
pub fn other_cells_laws()
    ensures cells { OtherCellsLaw }
    ensures number { SameNumberLaw }
    ensures others { SameElseLaw }
{}
