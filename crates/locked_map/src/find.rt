//! Where a key of a map room has its node, or would have it: the one walk that a command makes.

ghost use Rattle.std.specs.Prelude.{◌≡◌, ◌<◌, length};
ghost use Rattle.line_memory.specs.Line.{bank_load};
ghost use Rattle.seq_object.specs.Sizes.{sizes_of};
ghost use Rattle.room_model.specs.MapRoom.{layout_of, bucket_of};
ghost use Rattle.room_model.specs.Writes.{line_with, line_before};
ghost use Rattle.room_model.specs.Walks.{IsWalk};
ghost use Rattle.locked_map.specs.Plans.{MayPlan, IsPlace};

use crate::node::{KEY, NEXT};
use incll_var::CellBank;
use room_model::{BUCKETS, Heads};
use room_walks::Walk;
use seq_object::Settings;

/// The place of a key.
#[derive(Clone, Copy, Debug, PartialEq, Eq)]
pub(crate) struct Place {
    /// The line that has the head of the key's bucket.
    pub(crate) head_line: u32,
    /// The word of that line that names the first node of the bucket.
    pub(crate) head_word: u32,
    /// The first node of the bucket, 0 where there is none.
    pub(crate) first: u64,
    /// The key's node, 0 where there is none.
    pub(crate) node: u32,
    /// The node before the key's node, 0 where the head names the key's node.
    pub(crate) before: u32,
}

/// The place of a key in a room of these settings, with its heads there.
pub(crate) fn place_of(heads: Heads, settings: Settings, cells: &CellBank, key: u64) -> Place
    requires { MayPlan (layout_of heads) (sizes_of settings) cells.now }
    ensures { IsPlace (layout_of heads) (sizes_of settings) (bank_load cells.now.bank) key result }
{
    let bucket = bucket_of(settings, key);
    let head_line = heads.head_line(bucket);
    let head_word = heads.head_word(bucket);
    let first = cells.load(head_line, head_word);
    let (node, before) = walk(cells, key, first as u32);
    Place {
        head_line,
        head_word,
        first,
        node,
        before,
    }
}

/// The bucket of a key, from 0 to 7.
fn bucket_of(settings: Settings, key: u64) -> u32
    requires { 0 < settings.shards }
    ensures bucket { result ≡ bucket_of (sizes_of settings) key }
    ensures few { result < 8 }
{
    (key / u64::from(settings.shards) % u64::from(BUCKETS)) as u32
}

/// Walks along a chain to the node of a key, and gives it with the node before it; 0 is none.
fn walk(cells: &CellBank, key: u64, first: u32) -> (u32, u32)
    requires { IsWalk (bank_load cells.now.bank) (length cells.now.bank.lines) (length cells.now.bank.lines) first }
    ensures node { result.0 ≡ line_with (bank_load cells.now.bank) key (length cells.now.bank.lines) first }
    ensures before { result.1 ≡ line_before (bank_load cells.now.bank) key (length cells.now.bank.lines) 0 first }
{
    let mut walk = Walk::from(u64::from(first), NEXT, cells.lines());
    let mut before = 0;
    while let Some(line) = walk.next(cells) {
        let node = line as u32;
        if cells.load(node, KEY) == key {
            return (node, before);
        }
        before = node;
    }
    (0, before)
}
