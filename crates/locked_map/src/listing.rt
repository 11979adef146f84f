//! The pairs of a map room, listed by walks along its eight chains.

ghost use Rattle.std.specs.Prelude.{◌≡◌, ℕ, ◌≤◌, length, OnOk, IfOk};
ghost use Rattle.std.specs.FinMap.{from_entries};
ghost use Rattle.line_memory.specs.Line.{bank_load};
ghost use Rattle.seq_object.specs.Object.{Pairs};
ghost use Rattle.seq_object.specs.Plain.{listed};
ghost use Rattle.room_model.specs.MapRoom.{layout_of, IsMapRoom};
ghost use Rattle.room_model.specs.Walks.{IsWalk, pairs_from};
ghost use Rattle.locked_map.specs.Listing.{with_all};
ghost use Rattle.seq_object.specs.declared.sizes.Sizes.{Sizes};

use crate::node::{KEY, NEXT, VALUE};
use incll_var::CellBank;
use room_model::{BUCKETS, Heads};
use room_walks::{ReadsWords, Walk};
use seq_object::Pair;
use std::alloc::{AllocError, Global};
use std::collections::BTreeMap;

/// The pairs that walks from all heads, which lie there, meet, in the order of their keys. A walk that leaves the room meets one
/// line of zeros there, and one that does not end is cut off. The cause of a refusal is want of memory.
pub(crate) fn listed_pairs(
    alloc: Global,
    heads: Heads,
    cells: &CellBank,
) -> Result<Vec<Pair>, AllocError>
    requires { (layout_of heads).first ≤ length cells.now.bank.lines }
    ensures { (z : Sizes) → (shard : ℕ) → (held : Pairs) → z.lines ≡ length cells.now.bank.lines → IsMapRoom (layout_of heads) z shard (bank_load cells.now.bank) held → IfOk result (λ pairs. pairs.items ≡ listed held) }
{
    let mut pairs = BTreeMap::new(alloc);
    for bucket in 0..BUCKETS {
        let head_word = heads.head_word(bucket);
        let first = cells.load(heads.head_line(bucket), head_word);
        add_chain(cells, first, &mut pairs)?;
    }
    pairs
        .iter()
        .map(|(&key, &value)| Pair { key, value })
        .collect(alloc)
}

/// Adds the pairs of the nodes from this line on.
fn add_chain(cells: &CellBank, first: u64, pairs: &mut BTreeMap<u64, u64>) -> Result<(), AllocError>
    ensures { IsWalk (bank_load cells.now.bank) (length cells.now.bank.lines) (length cells.now.bank.lines) first → OnOk result (from_entries pairs.new.entries ≡ with_all (from_entries pairs.old.entries) (pairs_from (bank_load cells.now.bank) (length cells.now.bank.lines) first)) }
{
    let mut walk = Walk::from(first, NEXT, cells.lines());
    while let Some(line) = walk.next(cells) {
        pairs.insert(cells.read(line, KEY), cells.read(line, VALUE))?;
    }
    Ok(())
}
