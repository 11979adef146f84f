//! Formatted memory of the least sizes and of the most rooms, compared with words that were worked out by hand.

use crate::{format, format_room};
use line_memory::Bank;
use seq_object::{Settings, Sizes};
use std::test::Fail;

const LEAST: Settings = Settings {
    threads: 1,
    shards: 1,
    lines: 16,
    every: 1,
};

const MOST_ROOMS: Settings = Settings {
    threads: 16,
    shards: 8,
    lines: 16,
    every: 1,
};

/// How many of a bank's words are not 0.
fn set_words(bank: &Bank) -> u32 {
    let mut set = 0u32;
    for line in 0..bank.lines() {
        for word in 0..8 {
            if bank.load(line, word) != 0 {
                set = set.saturating_add(1);
            }
        }
    }
    set
}

#[test]
fn memory_of_the_least_sizes(rt: HostRuntime) -> Result<(), Fail> {
    let memory = format(rt.alloc(), &LEAST)?;
    assert_eq!(rt; memory.rooms(), 4);
    assert_eq!(rt; memory.lines(), 34);
    for (room, lines, word, value) in [(0, 16, 1, 9u64), (1, 16, 1, 2), (3, 1, 0, 1)] {
        assert!(rt; room < memory.rooms());
        let bank = memory.bank(room);
        assert_eq!(rt; bank.lines(), lines);
        assert!(rt; 0 < bank.lines());
        assert_eq!(rt; bank.load(0, word), value);
        assert_eq!(rt; set_words(bank), 1);
    }
    assert_eq!(rt; set_words(memory.bank(2)), 0);
    Ok(())
}

#[test]
fn memory_of_the_most_rooms(rt: HostRuntime) -> Result<(), Fail> {
    let memory = format(rt.alloc(), &MOST_ROOMS)?;
    assert_eq!(rt; memory.rooms(), 26);
    assert_eq!(rt; memory.lines(), 161);
    Ok(())
}

#[test]
fn one_room(rt: HostRuntime) -> Result<(), Fail> {
    let sizes = Sizes {
        threads: 2,
        shards: 3,
        lines: 20,
    };
    let bank = format_room(rt.alloc(), sizes, 3)?;
    assert_eq!(rt; bank.lines(), 20);
    assert!(rt; 0 < bank.lines());
    assert_eq!(rt; bank.base(0), [0, 2, 0, 0, 0, 0, 0, 0]);
    Ok(())
}
