//! The counts that a list names for the lines of one bank, in a table by line, so that no line needs a walk over the list.

ghost use Rattle.std.specs.Prelude.{◌≡◌, ℕ, ◌+◌, ◌<◌, ◌==◌, if◌then◌else◌, IfOk, length, slice_index};
ghost use Rattle.store_order.specs.Choice.{count_listed};

use crate::choice::Kept;
use std::alloc::{AllocError, Global};

/// The count that the list names for each of `lines` lines, of which the first has the number `first`: that of the first
/// entry with the line's number, and 0 where there is none. It walks the list from its end, so that the first entry with a
/// line is the last to be written.
pub fn counts_listed(
    alloc: Global,
    entries: &[Kept],
    first: u32,
    lines: u32,
) -> Result<Vec<u32>, AllocError>
    ensures many { IfOk result (λ counts. length counts.items ≡ lines) }
    ensures each { IfOk result (λ counts. (i : ℕ) → i < lines → slice_index counts.items i ≡ count_listed entries.now (first + i)) }
{
    let mut counts = vec![in alloc; 0u32; lines as usize]?;
    let mut i = entries.len();
    while i > 0 {
        i -= 1;
        let entry = entries[i];
        put_count(counts.as_mut_slice(), first, entry);
    }
    Ok(counts)
}

/// Writes the count of one entry, where its line is among those of the table.
fn put_count(counts: &mut [u32], first: u32, entry: Kept)
    ensures { (i : ℕ) → i < length counts.old → slice_index counts.new i ≡ (if entry.line == (first + i) then entry.count else slice_index counts.old i) }
{
    if entry.line >= first {
        let i = (entry.line - first) as usize;
        if i < counts.len() {
            counts[i] = entry.count;
        }
    }
}
