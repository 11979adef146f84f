//! Walks over the chains of a map room: each line met is marked, and its pair is kept.

ghost use Rattle.std.specs.Prelude.{◌≡◌, ℕ, ◌+◌, ◌<◌, ◌≤◌, ◌^◌, List, [], None, length, is_none, IfOk, OnOk, IfSome};
ghost use Rattle.std.specs.FinMap.{get, insert};
ghost use Rattle.seq_object.specs.Object.{Pairs, shard_of};
ghost use Rattle.room_model.specs.MapRoom.{layout_of};
ghost use Rattle.image_check.specs.Cells.{words_of, HasLines};
ghost use Rattle.image_check.specs.Marks.{IsClear};
ghost use Rattle.image_check.specs.Meeting.{met_from};
ghost use Rattle.image_check.specs.MapFaults.{is_placed, may_join, met_chains};
ghost use Rattle.image_check.specs.Keyed.{pairs_in, IsNoted, HasNoted};

use crate::cells::Cells;
use crate::walking::{Met, Nodes, meet};
use room_model::{BUCKETS, Heads};
use room_walks::{ReadsWords, Walk};
use seq_object::Sizes;
use std::alloc::AllocError;
use std::collections::BTreeMap;

/// The words of a node that have its key and its value, and name the next node.
const KEY: u32 = 0;

const VALUE: u32 = 1;

const NEXT: u32 = 2;

/// The chain of a bucket of a shard, and the line that it starts with, or 0.
#[derive(Clone, Copy)]
pub(crate) struct Chain {
    pub shard: u64,
    pub bucket: u64,
    pub start: u64,
}

/// Keeps a pair, and says whether its key is new.
fn keep_pair(pairs: &mut BTreeMap<u64, u64>, key: u64, value: u64) -> Result<bool, AllocError>
    ensures answer { IfOk result (λ is_new. is_new ≡ is_none (get (pairs_in pairs.old.entries) key)) }
    ensures kept { OnOk result (pairs_in pairs.new.entries ≡ insert (pairs_in pairs.old.entries) key value) }
{
    Ok(pairs.insert(key, value)?.is_none())
}

/// Whether a key belongs to the bucket of the shard.
fn is_placed(sizes: Sizes, chain: Chain, key: u64) -> bool
    requires { 0 < sizes.shards }
    ensures { result ≡ is_placed sizes chain.shard chain.bucket key }
{
    let shards = u64::from(sizes.shards);
    key % shards == chain.shard && key / shards % 8 == chain.bucket
}

/// Walks over the chain of a bucket until 0, marks each line met and keeps its pair. `None` where a line was not given out,
/// was met before, or has a key of another place or one that was met before. Want of memory is the one refusal.
fn walk_bucket(
    cells: Cells,
    nodes: Nodes,
    chain: Chain,
    met: Met,
    marks: &mut [bool],
    pairs: &mut BTreeMap<u64, u64>,
) -> Result<Option<Met>, AllocError>
    requires shards { 0 < cells.sizes.shards }
    requires lines { HasLines cells }
    requires is_fresh { nodes.fresh ≡ words_of cells 0 1 }
    requires fresh { nodes.fresh ≤ cells.sizes.lines }
    requires marks { length marks.old ≡ cells.sizes.lines }
    requires count { met.count + cells.sizes.lines < 2 ^ 64 }
    ensures few { IfOk result (λ now. IfSome now (λ some. some.count ≤ met.count + cells.entry.sizes.lines)) }
    ensures walked { IfOk result (λ now. (others : Pairs) (before : List ℕ) → IsNoted (words_of cells.entry) cells.entry.sizes chain.shard others marks.old met (pairs_in pairs.old.entries) before → HasNoted (words_of cells.entry) cells.entry.sizes chain.shard others now marks.new (pairs_in pairs.new.entries) (met_from (λ x. words_of cells.entry x 2) (may_join nodes.first (words_of cells.entry) cells.entry.sizes chain.shard chain.bucket) before cells.entry.sizes.lines chain.start)) }
{
    let mut walk = Walk::from(chain.start, NEXT, cells.sizes.lines);
    let mut now = met;
    while let Some(line) = walk.next(&cells) {
        if !meet(nodes, line, marks) {
            return Ok(None);
        }
        let key = cells.read(line, KEY);
        if !is_placed(cells.sizes, chain, key) {
            return Ok(None);
        }
        let is_new = keep_pair(pairs, key, cells.read(line, VALUE))?;
        if !is_new {
            return Ok(None);
        }
        now = Met {
            count: now.count + 1,
            latest: line,
        };
    }
    Ok(if walk.line == 0 { Some(now) } else { None })
}

/// Walks over the chains of all buckets, with clear marks and no pair of this shard yet. `None` where a line may not be met.
/// Want of memory is the one refusal.
pub(crate) fn walk_chains(
    cells: Cells,
    heads: Heads,
    shard: u64,
    fresh: u64,
    marks: &mut [bool],
    pairs: &mut BTreeMap<u64, u64>,
) -> Result<Option<Met>, AllocError>
    requires shards { 0 < cells.sizes.shards }
    requires nine { 9 ≤ cells.sizes.lines }
    requires lines { HasLines cells }
    requires is_fresh { fresh ≡ words_of cells 0 1 }
    requires fresh { fresh ≤ cells.sizes.lines }
    requires marks { length marks.old ≡ cells.sizes.lines }
    requires clear { IsClear marks.old }
    requires others { (key : ℕ) → shard_of cells.sizes key ≡ shard → get (pairs_in pairs.old.entries) key ≡ None }
    ensures few { IfOk result (λ now. IfSome now (λ some. some.count < 2 ^ 36)) }
    ensures walked { IfOk result (λ now. HasNoted (words_of cells.entry) cells.entry.sizes shard (pairs_in pairs.old.entries) now marks.new (pairs_in pairs.new.entries) (met_chains (layout_of heads) cells.entry.sizes shard (words_of cells.entry) 8)) }
{
    let mut now = Met {
        count: 0,
        latest: 0,
    };
    let nodes = Nodes {
        first: heads.first_node(),
        fresh,
    };
    for bucket in 0..BUCKETS {
        let chain = Chain {
            shard,
            bucket: bucket as u64,
            start: cells.head(heads, bucket),
        };
        match walk_bucket(cells, nodes, chain, now, marks, pairs)? {
            None => return Ok(None),
            Some(met) => now = met,
        }
    }
    Ok(Some(now))
}
