//! What lines keep at a cut.

ghost use Rattle.std.specs.Prelude.{◌≡◌, ◌<◌, ◌^◌, IfOk, length};
ghost use Rattle.crash_explorer.specs.Cut.{AreWithin, bare, left_by, pending_of};
ghost use Rattle.crash_explorer.specs.Listed.{listed};

use line_memory::Bank;
use std::alloc::{AllocError, Global};
use store_order::{Choice, Kept, survive};

/// An entry for each line, with its count.
fn entries_of(alloc: Global, kept: &[u32]) -> Result<Vec<Kept>, AllocError>
    requires { length kept.now < 2 ^ 32 }
    ensures { IfOk result (λ entries. entries.items ≡ listed 0 kept.now) }
{
    let mut entries = Vec::with_capacity(alloc, kept.len())?;
    for (i, count) in kept.iter().enumerate() {
        entries.push(Kept {
            line: i as u32,
            count: *count,
        })?;
    }
    Ok(entries)
}

/// The words of the lines where each keeps so many of its pending stores.
pub(crate) fn words_left(
    alloc: Global,
    bank: &Bank,
    kept: &[u32],
) -> Result<Vec<[u64; 8]>, AllocError>
    requires { AreWithin kept.now (pending_of (bare bank.now.lines)) }
    ensures { IfOk result (λ left. left.items ≡ left_by kept.now (bare bank.now.lines)) }
{
    let _lines = bank.lines();
    let entries = entries_of(alloc, kept)?;
    let left = survive(alloc, bank, &Choice::List(entries), 0)?;
    Ok(left)
}

/// The same words again.
pub(crate) fn copied_words(alloc: Global, words: &[[u64; 8]]) -> Result<Vec<[u64; 8]>, AllocError>
    ensures { IfOk result (λ copy. copy.items ≡ words.now) }
{
    let mut copy = Vec::with_capacity(alloc, words.len())?;
    for line in words {
        copy.push(*line)?;
    }
    Ok(copy)
}
