//! Rooms, images, the crash clause, the present clause and reports tried on memories that were worked out by hand.
//! Each is the contract of a function that does nothing.
ghost use Rattle.life_laws.specs.CutExamples.{EpochWriteExamples, CellExamples, ImageExamples, ListExamples, PresentExamples, UnsafeExamples};
ghost use Rattle.life_laws.specs.LifeExamples.{LeaveExamples, LifeExamples};
ghost use Rattle.life_laws.specs.RoomExamples.{MapRoomExamples, QueueRoomExamples, LayoutExamples};
ghost use Rattle.life_laws.specs.StandsExamples.{StandsExamples, RecoverExamples};
ghost use Rattle.life_laws.specs.ToldExamples.{ToldExamples};

/// The life of one put, cut about its epoch write.
pub fn epoch_write_examples()
    ensures { EpochWriteExamples }
{}

/// Cells whose survivors keep what memory held, and cells whose survivors do not.
pub fn cell_examples()
    ensures { CellExamples }
{}

/// Images that are lawful, and images that are not.
pub fn image_examples()
    ensures { ImageExamples }
{}

/// Lists of two lives.
pub fn list_examples()
    ensures { ListExamples }
{}

/// What the present clause says of held rooms and of positions.
pub fn present_examples()
    ensures { PresentExamples }
{}

/// Memories that the crash clause refuses.
pub fn unsafe_examples()
    ensures { UnsafeExamples }
{}

/// What reports tell of their lives, and what they may not tell.
pub fn told_examples()
    ensures { ToldExamples }
{}

/// Memories that stand at an epoch for a state, and memories that do not.
pub fn stands_examples()
    ensures { StandsExamples }
{}

/// The states that images recover to, and those that they do not.
pub fn recover_examples()
    ensures { RecoverExamples }
{}

/// The images that a power cut may leave of a life, and images that it may not.
pub fn leave_examples()
    ensures { LeaveExamples }
{}

/// Lives that may stand in a list, and the history that is left of one.
pub fn life_examples()
    ensures { LifeExamples }
{}

/// Map rooms that stand for their pairs, and map rooms that do not.
pub fn map_room_examples()
    ensures { MapRoomExamples }
{}

/// Queue rooms that stand for their items, and queue rooms that do not.
pub fn queue_room_examples()
    ensures { QueueRoomExamples }
{}

/// Where map rooms may not have their heads.
pub fn layout_examples()
    ensures { LayoutExamples }
{}
