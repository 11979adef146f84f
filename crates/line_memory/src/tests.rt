//! Banks and memories driven on by hand. The helpers look first whether a call may be made, so that each number here is
//! free; what the calls answer was worked out on paper.

use crate::{Bank, Memory};
use std::alloc::{AllocError, Global};
use std::process::Abort;
use std::test::Fail;

#[derive(Clone, Copy)]
enum Event {
    Store(u32, u32, u64),
    WriteBack(u32),
    Fence,
}

/// Two lines, with the words 10 to 17 and 20 to 27 in memory, and room for three stores and one.
fn two_lines(alloc: Global) -> Result<Bank, AllocError> {
    let mut base = Vec::new(alloc);
    base.push([10, 11, 12, 13, 14, 15, 16, 17])?;
    base.push([20, 21, 22, 23, 24, 25, 26, 27])?;
    let mut bank = Bank::of(alloc, base)?;
    if bank.lines() == 2 {
        bank.reserve(0, 3)?;
        bank.reserve(1, 1)?;
    }
    Ok(bank)
}

fn make(rt: &impl Abort, bank: &mut Bank, event: Event) {
    match event {
        Event::Store(line, word, value) => {
            assert!(rt; line < bank.lines() && word < 8);
            assert!(rt; bank.spare(line) > 0);
            bank.store(line, word, value);
        }
        Event::WriteBack(line) => {
            assert!(rt; line < bank.lines());
            bank.write_back(line);
        }
        Event::Fence => bank.fence(),
    }
}

/// A word by load and as it is in memory, and how many stores are pending, asked for and spare on its line.
fn seen(rt: &impl Abort, bank: &Bank, line: u32, word: u32) -> [u64; 5] {
    assert!(rt; line < bank.lines() && word < 8);
    let load = bank.load(line, word);
    let base = bank.base(line)[word as usize];
    let pending = bank.pending(line) as u64;
    [
        load,
        base,
        pending,
        bank.asked(line) as u64,
        bank.spare(line) as u64,
    ]
}

/// An event, then what is seen of word 1 of line 0 and of word 7 of line 1, and the write-backs so far.
const ROWS: [(Event, [u64; 5], [u64; 5], u64); 9] = [
    (
        Event::Store(0, 1, 100),
        [100, 11, 1, 0, 2],
        [27, 27, 0, 0, 1],
        0,
    ),
    (
        Event::Store(0, 1, 101),
        [101, 11, 2, 0, 1],
        [27, 27, 0, 0, 1],
        0,
    ),
    (
        Event::Store(1, 7, 200),
        [101, 11, 2, 0, 1],
        [200, 27, 1, 0, 0],
        0,
    ),
    (
        Event::WriteBack(0),
        [101, 11, 2, 2, 1],
        [200, 27, 1, 0, 0],
        1,
    ),
    (
        Event::Store(0, 1, 102),
        [102, 11, 3, 2, 0],
        [200, 27, 1, 0, 0],
        1,
    ),
    (Event::Fence, [102, 101, 1, 0, 2], [200, 27, 1, 0, 0], 1),
    (
        Event::WriteBack(0),
        [102, 101, 1, 1, 2],
        [200, 27, 1, 0, 0],
        2,
    ),
    (
        Event::WriteBack(1),
        [102, 101, 1, 1, 2],
        [200, 27, 1, 1, 0],
        3,
    ),
    (Event::Fence, [102, 102, 0, 0, 3], [200, 200, 0, 0, 1], 3),
];

#[test]
fn two_lines_by_hand(rt: HostRuntime) -> Result<(), Fail> {
    let mut bank = two_lines(rt.alloc())?;
    for (event, first, second, count) in ROWS {
        make(&rt, &mut bank, event);
        assert_eq!(rt; seen(&rt, &bank, 0, 1), first);
        assert_eq!(rt; seen(&rt, &bank, 1, 7), second);
        assert_eq!(rt; bank.write_backs(), count);
    }
    Ok(())
}

#[test]
fn one_store_is_pending(rt: HostRuntime) -> Result<(), Fail> {
    let mut bank = two_lines(rt.alloc())?;
    make(&rt, &mut bank, Event::Store(1, 7, 200));
    assert!(rt; bank.lines() == 2 && bank.pending(1) == 1);
    assert_eq!(rt; bank.pending_at(1, 0), (7, 200));
    // One more store and 2^32 - 1 of them could not be counted.
    assert!(rt; bank.reserve(1, u32::MAX).is_err());
    Ok(())
}

#[test]
fn a_memory_by_hand(rt: HostRuntime) -> Result<(), Fail> {
    assert_eq!(rt; Memory::empty(rt.alloc()).rooms(), 0);
    let mut bank = two_lines(rt.alloc())?;
    make(&rt, &mut bank, Event::WriteBack(1));
    assert!(rt; bank.lines() == 2);
    let mut banks = Vec::new(rt.alloc());
    banks.push(bank)?;
    let memory = Memory::of(banks);
    assert_eq!(rt;
        (memory.rooms(), memory.lines(), memory.write_backs()),
        (1, 2, 1)
    );
    assert_eq!(rt; memory.bank(0).write_backs(), 1);
    assert_eq!(rt; memory.into_banks().len(), 1);
    Ok(())
}
