//! Laws on lines, each the contract of a function that does nothing. They say what a load gives, and what a store, a
//! write-back and a fence do to the survivors: the words that a power cut can leave of a line.

ghost use Rattle.line_memory.specs.Laws.{LoadIsWholeLaw, LeftNoneLaw, LeftAllLaw, LeftLengthLaw, LeftWordsLaw, LeftStoredLaw, LeftStoredLastLaw, WholeStoredLaw, LeftWrittenBackLaw, LeftFencedLaw, WholeFencedLaw, FencedAllLaw, AllWriteBacksLaw};

/// A load of a word is that word of the line with all its pending stores.
pub fn load_law()
    ensures { LoadIsWholeLaw }
{}

/// The first survivor of a line is its base, the last has its words by loads, and each has eight words of 64 bits.
pub fn survivor_laws()
    ensures none { LeftNoneLaw }
    ensures all { LeftAllLaw }
    ensures length { LeftLengthLaw }
    ensures words { LeftWordsLaw }
{}

/// A store makes one more survivor and changes no other; a write-back changes none.
pub fn store_laws()
    ensures before { LeftStoredLaw }
    ensures last { LeftStoredLastLaw }
    ensures whole { WholeStoredLaw }
    ensures written_back { LeftWrittenBackLaw }
{}

/// A fence makes no survivor that was not there and changes no load; where all that is pending was asked for, what
/// memory holds is then what loads give.
pub fn fence_laws()
    ensures left { LeftFencedLaw }
    ensures whole { WholeFencedLaw }
    ensures all { FencedAllLaw }
{}

/// The write-backs of a memory are those of its banks together, as far as they can be counted.
pub fn count_law()
    ensures { AllWriteBacksLaw }
{}
