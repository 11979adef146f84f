//! Counts of stores, one for each line.

ghost use Rattle.std.specs.Prelude.{◌≡◌, ℕ, ◌+◌, ◌<◌, ◌≤◌, ◌^◌, ◌⊎◌, true, false, IfOk, IsTrue, List, length, sum, slice_index, IfSome, Option, None, replicate};
ghost use Rattle.crash_explorer.specs.Cut.{AreWithin, bare, pending_of};
ghost use Rattle.crash_explorer.specs.Order.{Earlier, advanced, ahead, survivor_count};

use line_memory::Bank;
use std::alloc::{AllocError, Global};

/// How many stores are pending on each line.
pub(crate) fn pending_counts(alloc: Global, bank: &Bank) -> Result<Vec<u32>, AllocError>
    ensures is { IfOk result (λ most. most.items ≡ pending_of (bare bank.now.lines)) }
    ensures few { IfOk result (λ most. length most.items < 2 ^ 32) }
{
    let most = counts_of(alloc, bank)?;
    Ok(most)
}

/// The same by the lines with their room.
fn counts_of(alloc: Global, bank: &Bank) -> Result<Vec<u32>, AllocError>
    ensures is { IfOk result (λ most. most.items ≡ pending_of bank.now.lines) }
    ensures few { IfOk result (λ most. length most.items < 2 ^ 32) }
{
    let mut most = Vec::with_capacity(alloc, bank.lines() as usize)?;
    for line in 0..bank.lines() {
        most.push(bank.pending(line))?;
    }
    Ok(most)
}

/// Goes on to the next counts, the first line fastest, as an odometer does. After the last it says no, and begins again.
pub(crate) fn advance(kept: &mut Vec<u32>, most: &[u32]) -> bool
    requires { AreWithin kept.old.items most.now }
    ensures within { AreWithin kept.new.items most.now }
    ensures next { IsTrue result → (v : List ℕ) → AreWithin v most.now → Earlier v kept.new.items → Earlier v kept.old.items ⊎ (v ≡ kept.old.items) }
    ensures is { IsTrue result → kept.new.items ≡ advanced kept.old.items most.now }
    ensures nearer { IsTrue result → ahead kept.new.items most.now + 1 ≡ ahead kept.old.items most.now }
    ensures last { result ≡ false → (v : List ℕ) → AreWithin v most.now → Earlier v kept.old.items ⊎ (v ≡ kept.old.items) }
    ensures none { result ≡ false → ahead kept.old.items most.now ≡ 0 }
{
    turn(kept.as_mut_slice(), most)
}

/// The same on the counts as they stand.
fn turn(kept: &mut [u32], most: &[u32]) -> bool
    requires { AreWithin kept.old most.now }
    ensures within { AreWithin kept.new most.now }
    ensures next { IsTrue result → (v : List ℕ) → AreWithin v most.now → Earlier v kept.new → Earlier v kept.old ⊎ (v ≡ kept.old) }
    ensures is { IsTrue result → kept.new ≡ advanced kept.old most.now }
    ensures nearer { IsTrue result → ahead kept.new most.now + 1 ≡ ahead kept.old most.now }
    ensures last { result ≡ false → (v : List ℕ) → AreWithin v most.now → Earlier v kept.old ⊎ (v ≡ kept.old) }
    ensures none { result ≡ false → ahead kept.old most.now ≡ 0 }
    ensures many { length kept.new ≡ length kept.old }
{
    for i in 0..kept.len() {
        if kept[i] < most[i] {
            kept[i] += 1;
            return true;
        }
        kept[i] = 0;
    }
    false
}

/// So many counts, all of them 0.
pub(crate) fn zeros(alloc: Global, n: usize) -> Result<Vec<u32>, AllocError>
    ensures { IfOk result (λ kept. kept.items ≡ replicate n 0) }
{
    let mut kept = Vec::with_capacity(alloc, n)?;
    for _i in 0..n {
        kept.push(0u32)?;
    }
    Ok(kept)
}

/// The same counts again.
pub(crate) fn copied(alloc: Global, counts: &[u32]) -> Result<Vec<u32>, AllocError>
    ensures { IfOk result (λ kept. kept.items ≡ counts.now) }
{
    let mut kept = Vec::with_capacity(alloc, counts.len())?;
    for count in counts {
        kept.push(*count)?;
    }
    Ok(kept)
}

/// How many stores are kept.
pub(crate) fn stores(kept: &[u32]) -> u64
    requires { length kept.now < 2 ^ 32 }
    ensures { result ≡ sum kept.now }
{
    let mut total = 0u64;
    for count in kept {
        total += u64::from(*count);
    }
    total
}

/// How many survivors lines have with so many pending stores each, where they are not more than a budget.
pub(crate) fn counted(most: &[u32], budget: u32) -> Option<u32>
    ensures within { IfSome result (λ n. (n ≡ survivor_count most.now) × (n ≤ budget)) }
    ensures beyond { result ≡ None → budget < survivor_count most.now }
{
    let mut product = 1u32;
    for m in most {
        let next = u64::from(product) * (u64::from(*m) + 1);
        if next > u64::from(budget) {
            return None;
        }
        product = next as u32;
    }
    if product > budget {
        return None;
    }
    Some(product)
}
