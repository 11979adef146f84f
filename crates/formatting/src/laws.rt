//! Laws on formatted memory, each the contract of a function that does nothing.

ghost use Rattle.formatting.specs.Laws.{FormattedLinesLaw, FormattedQuietLaw, FormattedLoadsLaw, FormattedWordsLaw, FormattedBanksLaw, FormattedRoomsLaw, FormattedMemoryQuietLaw, FormattedWriteBacksLaw, FormattedImageLaw};

/// A bank of formatted memory has its room's lines, on which nothing is pending; its loads and the words in memory are those of
/// the formatted room.
pub fn formatted_bank_laws()
    ensures lines { FormattedLinesLaw }
    ensures quiet { FormattedQuietLaw }
    ensures loads { FormattedLoadsLaw }
    ensures words { FormattedWordsLaw }
{}

/// Formatted memory has its banks by the numbers of their rooms; nothing is pending in it, nothing was written back, and a power
/// cut leaves the formatted image of it under every choice.
pub fn formatted_memory_laws()
    ensures banks { FormattedBanksLaw }
    ensures rooms { FormattedRoomsLaw }
    ensures quiet { FormattedMemoryQuietLaw }
    ensures flushed { FormattedWriteBacksLaw }
    ensures image { FormattedImageLaw }
{}
