//! What was found of the words that a cut left, and of a cut.

ghost use Rattle.std.specs.Prelude.{◌≡◌, ◌∷◌, IfOk};
ghost use Rattle.crash_explorer.specs.Inside.{cut_at};

use crate::answer::CutInside;
use crate::effort::Effort;
use crate::outcome::Outcome;
use std::alloc::AllocError;

/// What was found of the words that a cut left.
#[derive(Debug, Drop)]
pub(crate) enum LeftVerdict {
    /// Nothing that was tried is wrong.
    Clean(Effort),
    /// Recovery is wrong, or is where it is cut.
    Wrong(Miss),
}

/// What is wrong with words that a cut left: the cuts inside recovery, and what the last recovery came to.
#[derive(Debug, Drop)]
pub(crate) struct Miss {
    pub(crate) inside: Vec<CutInside>,
    pub(crate) outcome: Outcome,
}

/// What was found of a cut.
#[derive(Debug, Drop)]
pub(crate) enum CutVerdict {
    /// Nothing that was tried is wrong.
    Clean(Effort),
    /// A survivor is wrong.
    Wrong(Found),
}

/// A survivor that is wrong: the counts of its lines, how many stores these are, and what is wrong.
#[derive(Debug, Drop)]
pub(crate) struct Found {
    pub(crate) kept: Vec<u32>,
    pub(crate) stores: u64,
    pub(crate) miss: Miss,
}

/// What is wrong with words where a survivor of the cut behind this event of their recovery is.
pub(crate) fn miss_inside(event: u32, pending: Vec<u32>, found: Found) -> Result<Miss, AllocError>
    ensures outcome { IfOk result (λ miss. miss.outcome ≡ found.miss.outcome) }
    ensures inside { IfOk result (λ miss. miss.inside.items ≡ cut_at event found.kept pending ∷ found.miss.inside.items) }
{
    let Found { kept, miss, .. } = found;
    let Miss {
        mut inside,
        outcome,
    } = miss;
    inside.insert(
        0,
        CutInside {
            event,
            kept,
            pending,
        },
    )?;
    Ok(Miss { inside, outcome })
}
