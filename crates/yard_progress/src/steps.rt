//! The steps of a yard in its progress.

ghost use Rattle.yard_progress.specs.Laws.{ViewShownLaw, LeaveShownLaw, DrawShownLaw, ReleaseShownLaw};

/// A step that draws and releases nothing, and changes one view.
pub fn view_shown_law()
    ensures { ViewShownLaw }
{}

/// A leave.
pub fn leave_shown_law()
    ensures { LeaveShownLaw }
{}

/// A draw.
pub fn draw_shown_law()
    ensures { DrawShownLaw }
{}

/// A release.
pub fn release_shown_law()
    ensures { ReleaseShownLaw }
{}
