//! Laws on command rooms, each the contract of a function that does nothing.

ghost use Rattle.command_room.specs.Laws.{NoneMadeLaw, OneMoreMadeLaw, AllMadeLaw, PlanningLaw, WritesPlannedLaw, WholeLaw, SameContentsLaw, FormattedRoomLaw};

/// How far the stores of the command under way are made: none when it begins, one more with each step, and all where none is
/// left. So a room whose command is under way has the loads that the first stores of the command leave.
pub fn made_laws()
    ensures none { NoneMadeLaw }
    ensures one_more { OneMoreMadeLaw }
    ensures all { AllMadeLaw }
{}

/// What a layer above owes while it plans a command: nothing of the room, and of the stores that they come from writes.
pub fn planning_laws()
    ensures planning { PlanningLaw }
    ensures writes { WritesPlannedLaw }
{}

/// A room stands for all that the object may hold of which the room holds its part, and holds the same where its words do, as
/// behind each call of a room of cells.
pub fn whole_laws()
    ensures whole { WholeLaw }
    ensures same { SameContentsLaw }
{}

/// A room as memory is formatted may be a room, of whatever valid sizes and of each number that a room with commands has.
pub fn formatted_room_law()
    ensures { FormattedRoomLaw }
{}
