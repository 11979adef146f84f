//! Three cells through three writes and a checkpoint, cut behind every event. What is recovered was worked out by hand: the first write of a
//! cell in an epoch has five stores, each further one has one; a checkpoint writes two cells back, fences them, and stores, writes back and
//! fences the next epoch.

ghost use Rattle.std.specs.Prelude.{◌≡◌};
ghost use Rattle.epoch_cells.specs.Cells.{IsAtRest};

use crate::{EpochCells, cut_law};
use line_memory::Bank;
use room_model::Write;
use std::alloc::Global;
use std::process::Abort;
use store_order::{Choice, survive};

/// The records of new cells.
const FIRST: [[u64; 3]; 3] = [[1, 2, 3], [4, 5, 6], [7, 8, 9]];

/// And behind the writes.
const SECOND: [[u64; 3]; 3] = [[10, 20, 3], [4, 5, 6], [7, 8, 90]];

/// The records of three cells, at rest.
fn records_of(rt: &impl Abort, cells: &EpochCells) -> [[u64; 3]; 3] {
    assert!(rt; cells.is_at_rest() && cells.count() == 3);
    [
        [cells.word(0, 0), cells.word(0, 1), cells.word(0, 2)],
        [cells.word(1, 0), cells.word(1, 1), cells.word(1, 2)],
        [cells.word(2, 0), cells.word(2, 1), cells.word(2, 2)],
    ]
}

/// The records that are recovered from what this choice leaves of three cells now.
fn after_cut(rt: &impl Abort, alloc: Global, cells: &EpochCells, choice: &Choice) -> [[u64; 3]; 3] {
    let (bank, epoch) = cells.banks();
    assert!(rt; bank.lines() == 3 && epoch.lines() == 1);
    let bank = survive(alloc, bank, choice, 0).expect(rt, "memory");
    let epoch = survive(alloc, epoch, choice, 3).expect(rt, "memory");
    assert!(rt; bank.len() == 3 && epoch.len() == 1);
    let bank = Bank::of(alloc, bank).expect(rt, "memory");
    let epoch = Bank::of(alloc, epoch).expect(rt, "memory");
    cut_law();
    let mut recovered = EpochCells::recover(alloc, bank, epoch).expect(rt, "memory");
    recovered.finish();
    records_of(rt, &recovered)
}

/// Makes so many events; behind each of them a cut that keeps nothing leaves the first of these records, and one that keeps all the second.
fn make(
    rt: &impl Abort,
    alloc: Global,
    cells: &mut EpochCells,
    events: u32,
    nothing: [[u64; 3]; 3],
    all: [[u64; 3]; 3],
) {
    for _ in 0..events {
        assert!(rt; cells.step());
        assert!(rt; after_cut(rt, alloc, cells, &Choice::Nothing) == nothing);
        assert!(rt; after_cut(rt, alloc, cells, &Choice::All) == all);
    }
}

/// Begins a write of two words of the first of three cells and of one word of the last.
fn begin(rt: &impl Abort, cells: &mut EpochCells) {
    assert!(rt; cells.is_at_rest() && cells.count() == 3);
    let writes = [
        Write {
            line: 0,
            word: 0,
            value: 10,
        },
        Write {
            line: 2,
            word: 2,
            value: 90,
        },
        Write {
            line: 0,
            word: 1,
            value: 20,
        },
    ];
    cells.write(writes.as_slice()).expect(rt, "memory");
}

#[test]
fn a_cut_behind_every_event(rt: HostRuntime) {
    let alloc = rt.alloc();
    let mut cells = EpochCells::new(alloc, FIRST.as_slice()).expect(&rt, "memory");
    assert!(rt; !cells.is_at_rest());
    cells.finish();
    assert!(rt; records_of(&rt, &cells) == FIRST);
    begin(&rt, &mut cells);
    make(&rt, alloc, &mut cells, 11, FIRST, FIRST);
    assert!(rt; records_of(&rt, &cells) == SECOND);
    assert!(rt; cells.is_at_rest());
    cells.checkpoint();
    make(&rt, alloc, &mut cells, 3, FIRST, FIRST);
    make(&rt, alloc, &mut cells, 2, FIRST, SECOND);
    make(&rt, alloc, &mut cells, 1, SECOND, SECOND);
    assert!(rt; !cells.step());
    assert!(rt; records_of(&rt, &cells) == SECOND);
}
