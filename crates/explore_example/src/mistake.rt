//! What may be wrong with a store.

use std::fmt;

/// What is wrong with a store.
#[derive(Clone, Copy, Debug, PartialEq, Eq)]
pub enum Mistake {
    /// Nothing.
    None,
    /// A record is stored before its backup.
    RecordFirst,
    /// A closing does not fence the next epoch.
    Unfenced,
    /// The next epoch is stored before the cells are fenced.
    EpochEarly,
    /// Recovery stores the next epoch before it fences the cells.
    RecoveryEarly,
}

impl fmt::Display for Mistake {
    ghost use Rattle.std.specs.Prelude.{Some};
    ghost use Rattle.explore_example.specs.Words.{mistake_text};

    ghost output = { λ mistake. Some (mistake_text mistake) };

    /// The mistake in words.
    fn fmt<W: fmt::Write>(&self, f: &mut fmt::Formatter<W>) -> fmt::Result {
        f.write_str(match self {
            Mistake::None => "a right store",
            Mistake::RecordFirst => "a record is stored before its backup",
            Mistake::Unfenced => "a closing ends without a fence",
            Mistake::EpochEarly => "the next epoch is stored before the cells are fenced",
            Mistake::RecoveryEarly => {
                "recovery stores the next epoch before it fences the cells"
            }
        })
    }
}
