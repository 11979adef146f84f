//! Walks along a bank that was written by hand: a queue room whose chain goes from line 4 over line 2 to line 5, and a ring.

ghost use Rattle.incll_var.specs.Cells.{AreSettled};

use crate::{ReadsWords, Walk, items};
use incll_var::CellBank;
use line_memory::Bank;
use std::alloc::Global;
use std::process::Abort;

/// The queue room: its ends are lines 4 and 5, its items 40, 20 and 50.
const QUEUE: [[u64; 8]; 6] = [
    [3, 6, 3, 0, 0, 0, 0, 0],
    [4, 5, 0, 0, 0, 0, 0, 0],
    [20, 5, 0, 0, 0, 0, 0, 0],
    [0, 0, 0, 0, 0, 0, 0, 0],
    [40, 2, 0, 0, 0, 0, 0, 0],
    [50, 0, 0, 0, 0, 0, 0, 0],
];

/// Lines 2 and 3 name one another by word 1; by word 2 line 2 names a line that is none of the room's.
const RING: [[u64; 8]; 4] = [
    [0, 4, 2, 0, 0, 0, 0, 0],
    [2, 3, 0, 0, 0, 0, 0, 0],
    [7, 3, 99, 0, 0, 0, 0, 0],
    [8, 2, 0, 0, 0, 0, 0, 0],
];

/// A bank with these words in memory, which it is made sure are settled at this epoch.
fn bank_of(rt: &impl Abort, alloc: Global, words: &[[u64; 8]], epoch: u32) -> Bank
    ensures { AreSettled epoch result.lines }
{
    let mut base = Vec::new(alloc);
    base.extend_from_slice(words).expect(rt, "memory");
    assert!(rt; base.len() < 100);
    let bank = Bank::of(alloc, base).expect(rt, "memory");
    for line in 0..bank.lines() {
        assert!(rt; bank.pending(line) == 0 && bank.base(line)[6] <= u64::from(epoch));
    }
    bank
}

/// Saved cells over these words.
fn saved(rt: &impl Abort, alloc: Global, words: &[[u64; 8]]) -> CellBank {
    let bank = bank_of(rt, alloc, words, 1);
    CellBank::clean(alloc, bank, 1).expect(rt, "memory")
}

#[test]
fn a_walk_meets_the_lines_of_a_chain_in_order(rt: HostRuntime) {
    let cells = saved(&rt, rt.alloc(), &QUEUE);
    let mut walk = Walk::from(4, 1, 6);
    assert_eq!(rt; walk.next(&cells), Some(4));
    assert_eq!(rt; walk.next(&cells), Some(2));
    assert_eq!(rt; walk.next(&cells), Some(5));
    assert_eq!(rt; walk.next(&cells), None);
    assert_eq!(rt; walk.left, 3);
}

#[test]
fn a_walk_ends_where_it_may_meet_no_more(rt: HostRuntime) {
    let cells = saved(&rt, rt.alloc(), &RING);
    let mut walk = Walk::from(2, 1, 3);
    assert_eq!(rt; walk.next(&cells), Some(2));
    assert_eq!(rt; walk.next(&cells), Some(3));
    assert_eq!(rt; walk.next(&cells), Some(2));
    assert_eq!(rt; walk.next(&cells), None);
}

#[test]
fn a_line_that_is_none_of_the_rooms_reads_as_zeros(rt: HostRuntime) {
    let cells = saved(&rt, rt.alloc(), &RING);
    let mut walk = Walk::from(2, 2, 4);
    assert_eq!(rt; walk.next(&cells), Some(2));
    assert_eq!(rt; walk.next(&cells), Some(99));
    assert_eq!(rt; walk.next(&cells), None);
    assert_eq!(rt; cells.read(99, 0), 0);
}

#[test]
fn items_come_from_front_to_back(rt: HostRuntime) {
    let cells = saved(&rt, rt.alloc(), &QUEUE);
    let all = items(rt.alloc(), &cells, 6).expect(&rt, "memory");
    assert!(rt; all.as_slice() == [40, 20, 50].as_slice());
    let two = items(rt.alloc(), &cells, 2).expect(&rt, "memory");
    assert!(rt; two.as_slice() == [40, 20].as_slice());
}
