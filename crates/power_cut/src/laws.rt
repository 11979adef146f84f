//! Laws on images, the contract of a function that does nothing. They say what a reader of the other contracts wants to
//! conclude: bytes and images are tied one to one, and a memory without pending stores is its image.

ghost use Rattle.power_cut.specs.Laws.{SpellingsPassLaw, OneSpellingLaw, QuietMemoryLaw};

/// The bytes of a whole image have no fault, no two whole images have the same bytes, and a memory made of an image leaves
/// that image under every choice.
pub fn image_laws()
    ensures pass { SpellingsPassLaw }
    ensures one { OneSpellingLaw }
    ensures quiet { QuietMemoryLaw }
{}
