//! For each kind of step, that it keeps the lawful world.
ghost use Rattle.yard_model.specs.Lawful.{Lawful};
ghost use Rattle.yard_model.specs.Laws.{LookKeepsLaw, PowerKeepsLaw, TickKeepsLaw, OffKeepsLaw, StandKeepsLaw, LeaveKeepsLaw, ClaimKeepsLaw, NoteKeepsLaw, LockKeepsLaw, UnlockKeepsLaw, RetreatKeepsLaw, DrawKeepsLaw, ReleaseKeepsLaw};

/// A look keeps the world lawful.
pub fn look_law()
    ensures { LookKeepsLaw Lawful }
{}

/// A look at the power keeps the world lawful.
pub fn power_law()
    ensures { PowerKeepsLaw Lawful }
{}

/// A tick keeps the world lawful.
pub fn tick_law()
    ensures { TickKeepsLaw Lawful }
{}

/// To turn the power off keeps the world lawful.
pub fn off_law()
    ensures { OffKeepsLaw Lawful }
{}

/// To stand keeps the world lawful.
pub fn stand_law()
    ensures { StandKeepsLaw Lawful }
{}

/// To leave keeps the world lawful.
pub fn leave_law()
    ensures { LeaveKeepsLaw Lawful }
{}

/// To begin a closing keeps the world lawful.
pub fn claim_law()
    ensures { ClaimKeepsLaw Lawful }
{}

/// To note the number of entries keeps the world lawful.
pub fn note_law()
    ensures { NoteKeepsLaw Lawful }
{}

/// To take a room keeps the world lawful.
pub fn lock_law()
    ensures { LockKeepsLaw Lawful }
{}

/// To give a room back keeps the world lawful.
pub fn unlock_law()
    ensures { UnlockKeepsLaw Lawful }
{}

/// To give a room back in mid-work keeps the world lawful, when the power was seen off.
pub fn retreat_law()
    ensures { RetreatKeepsLaw Lawful }
{}

/// To draw an entry keeps the world lawful.
pub fn draw_law()
    ensures { DrawKeepsLaw Lawful }
{}

/// To acknowledge a checkpoint keeps the world lawful.
pub fn release_law()
    ensures { ReleaseKeepsLaw Lawful }
{}
