//! Laws on faults, each the contract of a function that does nothing: no fault is found exactly where there is none.

ghost use Rattle.image_check.specs.Laws.{QueueSoundLaw, QueueCompleteLaw, MapSoundLaw, MapCompleteLaw, ImageSoundLaw, ImageCompleteLaw, LeftLawfulLaw};

/// A queue room has no fault exactly where it stands for items, those of the walk over its chain.
pub fn queue_fault_laws()
    ensures sound { QueueSoundLaw }
    ensures complete { QueueCompleteLaw }
{}

/// A map room has no fault exactly where it stands for pairs, those of the walks over its chains.
pub fn map_fault_laws()
    ensures sound { MapSoundLaw }
    ensures complete { MapCompleteLaw }
{}

/// A whole image has no fault exactly where it is lawful.
pub fn image_fault_laws()
    ensures sound { ImageSoundLaw }
    ensures complete { ImageCompleteLaw }
{}

/// Whatever a power cut leaves of a memory that is safe at one, which a life's memory is at any moment, is lawful and has no
/// fault.
pub fn left_lawful_law()
    ensures { LeftLawfulLaw }
{}
