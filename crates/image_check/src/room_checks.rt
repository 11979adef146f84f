//! The first fault of one room: of the queue room, and of the map room of a shard.

ghost use Rattle.std.specs.Prelude.{◌≡◌, ℕ, ◌+◌, ◌<◌, ◌≤◌, ◌^◌, ◌==◌, ◌&&◌, List, None, Some, length, IfOk, if◌then◌else◌};
ghost use Rattle.std.specs.FinMap.{get};
ghost use Rattle.seq_object.specs.Object.{shard_of};
ghost use Rattle.room_model.specs.MapRoom.{layout_of};
ghost use Rattle.image_check.specs.Cells.{words_of, HasLines};
ghost use Rattle.image_check.specs.Marks.{HasMarksOf, IsClear};
ghost use Rattle.image_check.specs.QueueFaults.{header_of, is_header, met_free, fault_of_free, met_queue, fault_of_queue, queue_fault};
ghost use Rattle.image_check.specs.MapFaults.{met_chains, fault_of_chains, map_fault};
ghost use Rattle.image_check.specs.Keyed.{pairs_in, HasShardPairs};

use crate::cells::Cells;
use crate::chains::walk_chains;
use crate::room_fault::{Header, RoomFault};
use crate::walking::{Met, Nodes, walk};
use room_model::{Heads, QUEUE_FIRST};
use seq_object::Sizes;
use std::alloc::{AllocError, Global};
use std::collections::BTreeMap;

/// Whether the numbers of a header are in range.
fn is_in_range(header: Header, first: u64, sizes: Sizes) -> bool
    ensures { result ≡ is_header first sizes header }
{
    first <= header.fresh
        && header.fresh <= u64::from(sizes.lines)
        && (header.free == 0 || (first <= header.free && header.free < header.fresh))
        && header.count <= header.fresh - first
}

/// What is wrong with the counts, where so many lines are in chains and so many are met in all.
fn count_fault(header: Header, first: u64, held: u64, all: u64) -> Option<RoomFault>
    requires { all + first < 2 ^ 64 }
    ensures { result ≡ (if (header.count == held) && (all + first == header.fresh) then None else Some RoomFault.BadCount) }
{
    if header.count == held && all + first == header.fresh {
        None
    } else {
        Some(RoomFault::BadCount)
    }
}

/// The first fault of the free lines and the counts, behind the lines of the chains.
fn free_fault(
    cells: Cells,
    first: u64,
    header: Header,
    met: Met,
    marks: &mut [bool],
) -> Option<RoomFault>
    requires header { header ≡ header_of (words_of cells) }
    requires first { first < 2 ^ 32 }
    requires lines { HasLines cells }
    requires fresh { header.fresh ≤ cells.sizes.lines }
    requires marks { length marks.old ≡ cells.sizes.lines }
    requires count { met.count < 2 ^ 36 }
    ensures { (before : List ℕ) → HasMarksOf marks.old met before → result ≡ fault_of_free first (words_of cells.entry) (length before) (met_free first cells.entry.sizes (words_of cells.entry) before) }
{
    let nodes = Nodes {
        first,
        fresh: header.fresh,
    };
    match walk(cells, 0, nodes, header.free, met, marks) {
        None => Some(RoomFault::BadFreeList),
        Some(all) => count_fault(header, first, met.count, all.count),
    }
}

/// The first fault of the queue room. Want of memory is the one refusal.
pub(crate) fn check_queue(alloc: Global, cells: Cells) -> Result<Option<RoomFault>, AllocError>
    requires two { 2 ≤ cells.sizes.lines }
    requires lines { HasLines cells }
    ensures { IfOk result (λ fault. fault ≡ queue_fault cells.entry.sizes (words_of cells.entry)) }
{
    let header = cells.header();
    if !is_in_range(header, QUEUE_FIRST, cells.sizes) {
        return Ok(Some(RoomFault::BadHeader));
    }
    let mut marks = vec![in alloc; false; cells.sizes.lines as usize]?;
    Ok(queue_chain_fault(cells, header, marks.as_mut_slice()))
}

/// The first fault of the queue room behind its header, with clear marks.
fn queue_chain_fault(cells: Cells, header: Header, marks: &mut [bool]) -> Option<RoomFault>
    requires header { header ≡ header_of (words_of cells) }
    requires two { 2 ≤ cells.sizes.lines }
    requires lines { HasLines cells }
    requires fresh { header.fresh ≤ cells.sizes.lines }
    requires marks { length marks.old ≡ cells.sizes.lines }
    requires clear { IsClear marks.old }
    ensures { result ≡ fault_of_queue cells.entry.sizes (words_of cells.entry) (met_queue cells.entry.sizes (words_of cells.entry)) }
{
    let nodes = Nodes {
        first: QUEUE_FIRST,
        fresh: header.fresh,
    };
    let none = Met {
        count: 0,
        latest: 0,
    };
    let last = cells.word(1, 1);
    match walk(cells, 1, nodes, cells.word(1, 0), none, marks) {
        None => Some(RoomFault::BadChain),
        Some(met) => {
            if last == met.latest {
                free_fault(cells, QUEUE_FIRST, header, met, marks)
            } else {
                Some(RoomFault::BadEnds)
            }
        }
    }
}

/// The first fault of the map room of a shard of which no pair is kept yet. Where there is none, the room's pairs are kept
/// beside those of other shards. Want of memory is the one refusal.
pub(crate) fn check_map(
    alloc: Global,
    cells: Cells,
    heads: Heads,
    shard: u64,
    pairs: &mut BTreeMap<u64, u64>,
) -> Result<Option<RoomFault>, AllocError>
    requires shards { 0 < cells.sizes.shards }
    requires nine { 9 ≤ cells.sizes.lines }
    requires lines { HasLines cells }
    requires others { (key : ℕ) → shard_of cells.sizes key ≡ shard → get (pairs_in pairs.old.entries) key ≡ None }
    ensures fault { IfOk result (λ fault. fault ≡ map_fault (layout_of heads) cells.entry.sizes shard (words_of cells.entry)) }
    ensures pairs { IfOk result (λ fault. fault ≡ None → HasShardPairs (layout_of heads) cells.entry.sizes shard (words_of cells.entry) (pairs_in pairs.old.entries) (pairs_in pairs.new.entries)) }
{
    let header = cells.header();
    if !is_in_range(header, heads.first_node(), cells.sizes) {
        return Ok(Some(RoomFault::BadHeader));
    }
    let mut marks = vec![in alloc; false; cells.sizes.lines as usize]?;
    map_chains_fault(cells, heads, shard, header, marks.as_mut_slice(), pairs)
}

/// The first fault of the map room of a shard behind its header, with clear marks.
fn map_chains_fault(
    cells: Cells,
    heads: Heads,
    shard: u64,
    header: Header,
    marks: &mut [bool],
    pairs: &mut BTreeMap<u64, u64>,
) -> Result<Option<RoomFault>, AllocError>
    requires header { header ≡ header_of (words_of cells) }
    requires shards { 0 < cells.sizes.shards }
    requires nine { 9 ≤ cells.sizes.lines }
    requires lines { HasLines cells }
    requires fresh { header.fresh ≤ cells.sizes.lines }
    requires marks { length marks.old ≡ cells.sizes.lines }
    requires clear { IsClear marks.old }
    requires others { (key : ℕ) → shard_of cells.sizes key ≡ shard → get (pairs_in pairs.old.entries) key ≡ None }
    ensures fault { IfOk result (λ fault. fault ≡ fault_of_chains (layout_of heads).first cells.entry.sizes (words_of cells.entry) (met_chains (layout_of heads) cells.entry.sizes shard (words_of cells.entry) 8)) }
    ensures pairs { IfOk result (λ fault. fault ≡ None → HasShardPairs (layout_of heads) cells.entry.sizes shard (words_of cells.entry) (pairs_in pairs.old.entries) (pairs_in pairs.new.entries)) }
{
    match walk_chains(cells, heads, shard, header.fresh, marks, pairs)? {
        None => Ok(Some(RoomFault::BadChain)),
        Some(met) => Ok(free_fault(cells, heads.first_node(), header, met, marks)),
    }
}
