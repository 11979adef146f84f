//! Cells driven on by hand. The helpers look first whether a call may be made, so that each number here is free; what
//! memory holds and what a cut leaves was worked out on paper.

ghost use Rattle.std.specs.Prelude.{true, IsTrue, ◌<◌};
ghost use Rattle.line_memory.specs.Line.{unasked};
ghost use Rattle.incll_var.specs.Cells.{IsRunning, MayEnter, MayClose, MayRestore, IsClosing, AreSettled};

use crate::{CellBank, CellState, Plan, RestoreStep};
use line_memory::Bank;
use room_model::TAG;
use std::alloc::Global;
use std::process::Abort;

fn may_enter(state: CellState, epoch: u32) -> bool
    ensures { IsTrue result → MayEnter state epoch }
{
    match state {
        CellState::Running(running) => running == epoch,
        CellState::Saved(saved) => saved < epoch,
        _ => false,
    }
}

fn may_close(state: CellState) -> bool
    ensures { IsTrue result → MayClose state }
{
    matches!(state, CellState::Running(_) | CellState::Saved(_))
}

fn is_closing(state: CellState) -> bool
    ensures { IsTrue result → IsClosing state }
{
    matches!(state, CellState::Closing(_))
}

fn may_restore(state: CellState) -> bool
    ensures { IsTrue result → MayRestore state }
{
    matches!(state, CellState::Torn(_) | CellState::Saved(_))
}

/// A bank with these words in memory, which it is made sure are settled at this epoch.
fn bank_of(rt: &impl Abort, alloc: Global, words: &[[u64; 8]], epoch: u32) -> Bank
    ensures { AreSettled epoch result.lines }
{
    let mut base = Vec::new(alloc);
    base.extend_from_slice(words).expect(rt, "memory");
    assert!(rt; base.len() < 100);
    let bank = Bank::of(alloc, base).expect(rt, "memory");
    for line in 0..bank.lines() {
        assert!(rt; bank.pending(line) == 0 && bank.base(line)[TAG as usize] <= u64::from(epoch));
    }
    bank
}

/// Saved cells over these words.
fn saved(rt: &impl Abort, alloc: Global, words: &[[u64; 8]], epoch: u32) -> CellBank {
    let bank = bank_of(rt, alloc, words, epoch);
    CellBank::clean(alloc, bank, epoch).expect(rt, "memory")
}

/// Writes to a cell in an epoch, and makes all the stores of the write.
fn write(rt: &impl Abort, alloc: Global, cells: &mut CellBank, epoch: u32, place: (u32, u32, u64)) {
    let (line, word, value) = place;
    assert!(rt; may_enter(cells.state(), epoch) && line < cells.lines() && word < 3);
    cells.enter(epoch);
    let mut plan = Plan::new(alloc);
    cells
        .plan_write(line, word, value, &mut plan)
        .expect(rt, "memory");
    cells.ready(&plan).expect(rt, "memory");
    while plan.left() > 0 {
        cells.play(&mut plan);
    }
}

/// Closes the epoch, and says how many lines it wrote back.
fn close(rt: &impl Abort, cells: &mut CellBank) -> u32 {
    assert!(rt; may_close(cells.state()));
    let count = cells.close_begin();
    if count == 0 {
        return 0;
    }
    let mut more = true;
    while more {
        assert!(rt; is_closing(cells.state()));
        more = cells.close_next();
    }
    assert!(rt; is_closing(cells.state()));
    cells.close_fence();
    count
}

/// The triple at an epoch of what a cut leaves of a line that keeps its first pending stores.
fn left(rt: &impl Abort, bank: &Bank, line: u32, kept: u32, epoch: u64) -> [u64; 3] {
    assert!(rt; line < bank.lines() && kept <= bank.pending(line));
    let mut words = bank.base(line);
    for k in 0..kept {
        let (word, value) = bank.pending_at(line, k);
        assert!(rt; word < 8);
        words[word as usize] = value;
    }
    if words[TAG as usize] == epoch {
        [words[3], words[4], words[5]]
    } else {
        [words[0], words[1], words[2]]
    }
}

/// Every cut of every line leaves this triple at the epoch.
fn leaves(rt: &impl Abort, cells: &CellBank, epoch: u64, triples: [[u64; 3]; 5]) {
    let bank = cells.bank();
    assert!(rt; bank.lines() == 5);
    for line in 0..5u32 {
        for kept in 0..=bank.pending(line) {
            assert!(rt; left(rt, bank, line, kept, epoch) == triples[line as usize]);
        }
    }
}

#[test]
fn the_five_stores_of_a_first_write(rt: HostRuntime) {
    let mut cells = saved(&rt, rt.alloc(), &[[4, 5, 6, 0, 0, 0, 2, 7]], 2);
    write(&rt, rt.alloc(), &mut cells, 3, (0, 1, 50));
    write(&rt, rt.alloc(), &mut cells, 3, (0, 2, 60));
    assert!(rt; cells.lines() == 1 && cells.bank().pending(0) == 6);
    let stores = [(3, 4), (4, 5), (5, 6), (6, 3), (1, 50), (2, 60)];
    for k in 0..6u32 {
        assert_eq!(rt; cells.bank().pending_at(0, k), stores[k as usize]);
    }
    assert_eq!(rt; (cells.triple(0), cells.tag(0)), ([4, 50, 60], 3));
    assert_eq!(rt; cells.load(0, 7), 7);
}

#[test]
fn five_lines_through_two_epochs(rt: HostRuntime) {
    let words = [[10, 11, 12, 0, 0, 0, 0, 0]; 5];
    let mut cells = saved(&rt, rt.alloc(), &words, 0);
    let first = [10, 11, 12];
    write(&rt, rt.alloc(), &mut cells, 1, (0, 0, 20));
    write(&rt, rt.alloc(), &mut cells, 1, (3, 2, 21));
    write(&rt, rt.alloc(), &mut cells, 1, (0, 1, 22));
    leaves(&rt, &cells, 1, [first; 5]);
    assert_eq!(rt; close(&rt, &mut cells), 2);
    assert!(rt; cells.state() == CellState::Saved(1));
    let second = [[20, 22, 12], first, first, [10, 11, 21], first];
    leaves(&rt, &cells, 2, second);
    write(&rt, rt.alloc(), &mut cells, 2, (0, 2, 30));
    write(&rt, rt.alloc(), &mut cells, 2, (4, 0, 31));
    leaves(&rt, &cells, 2, second);
    assert_eq!(rt; close(&rt, &mut cells), 2);
    assert_eq!(rt; close(&rt, &mut cells), 0);
    leaves(
        &rt,
        &cells,
        3,
        [[20, 22, 30], first, first, [10, 11, 21], [31, 11, 12]],
    );
    assert_eq!(rt; cells.into_bank().write_backs(), 4);
}

/// Writes the next line back, where another is left, and says whether one still is.
fn write_one_back(rt: &impl Abort, cells: &mut CellBank, more: bool) -> bool
    requires { IsTrue more → 0 < unasked cells.old.bank.lines }
    ensures { IsTrue result → 0 < unasked cells.new.bank.lines }
{
    assert!(rt; more && is_closing(cells.state()));
    cells.close_next()
}

/// Which of the lines have something asked for.
fn asked(rt: &impl Abort, cells: &CellBank) -> [bool; 4] {
    assert!(rt; cells.lines() == 4);
    let bank = cells.bank();
    [
        bank.asked(0) > 0,
        bank.asked(1) > 0,
        bank.asked(2) > 0,
        bank.asked(3) > 0,
    ]
}

#[test]
fn lines_are_written_back_in_the_order_of_their_first_stores(rt: HostRuntime) {
    let mut cells = saved(&rt, rt.alloc(), &[[0; 8]; 4], 0);
    for (line, value) in [(3u32, 1u64), (1, 2), (3, 3), (2, 4)] {
        write(&rt, rt.alloc(), &mut cells, 1, (line, 0, value));
    }
    assert!(rt; may_close(cells.state()));
    let count = cells.close_begin();
    assert_eq!(rt; count, 3);
    let more = write_one_back(&rt, &mut cells, true);
    assert_eq!(rt; asked(&rt, &cells), [false, false, false, true]);
    let more = write_one_back(&rt, &mut cells, more);
    assert_eq!(rt; asked(&rt, &cells), [false, true, false, true]);
    let more = write_one_back(&rt, &mut cells, more);
    assert_eq!(rt; asked(&rt, &cells), [false, true, true, true]);
    assert!(rt; !more);
}

#[test]
fn a_line_is_restored(rt: HostRuntime) {
    let bank = bank_of(&rt, rt.alloc(), &[[0, 10, 0, 0, 9, 0, 1, 0]], 1);
    let mut cells = CellBank::torn(rt.alloc(), bank, 1).expect(&rt, "memory");
    let steps = [
        RestoreStep::Stored,
        RestoreStep::Stored,
        RestoreStep::Stored,
        RestoreStep::Wrote,
        RestoreStep::Fenced,
        RestoreStep::Finished,
    ];
    for step in steps {
        assert!(rt; may_restore(cells.state()));
        assert!(rt; cells.restore_next() == step);
    }
    assert!(rt; cells.state() == CellState::Saved(1) && cells.lines() == 1);
    assert_eq!(rt; cells.bank().base(0), [0, 9, 0, 0, 9, 0, 1, 0]);
}

#[test]
#[tactic(auto, using(crate::proofs::Fills::five_stores))]
fn room_that_is_made_before(rt: HostRuntime) {
    let mut plan = Plan::new(rt.alloc());
    plan.reserve(5).expect(&rt, "memory");
    plan.clear();
    assert!(rt; plan.left() == 0 && plan.spare() >= 5);
    let mut cells = saved(&rt, rt.alloc(), &[[0; 8]], 0);
    assert!(rt; cells.lines() == 1 && may_enter(cells.state(), 1));
    cells.reserve(0, 5).expect(&rt, "memory");
    assert!(rt; cells.bank().spare(0) >= 5);
    cells.enter(1);
    cells.plan_reserved(0, 1, 9, &mut plan);
    assert_eq!(rt; plan.left(), 5);
}

/// Plans these writes, each of a line, a word and a value, in order.
fn plan_all(rt: &impl Abort, cells: &CellBank, writes: &[(u32, u32, u64)], plan: &mut Plan)
    requires { IsRunning cells.now.state }
{
    for &(line, word, value) in writes {
        assert!(rt; line < cells.lines() && word < 3);
        cells
            .plan_write(line, word, value, plan)
            .expect(rt, "memory");
    }
}

/// What the words of a line will load behind a plan.
fn line_behind(rt: &impl Abort, cells: &CellBank, plan: &Plan, line: u32) -> [u64; 8] {
    assert!(rt; line < cells.lines());
    let mut words = [0; 8];
    for word in 0..8u32 {
        words[word as usize] = cells.load_behind(line, word, plan);
    }
    words
}

#[test]
fn what_words_will_load(rt: HostRuntime) {
    let words = [[4, 5, 6, 0, 0, 0, 2, 7], [8, 9, 0, 0, 0, 0, 1, 0]];
    let mut cells = saved(&rt, rt.alloc(), &words, 2);
    assert!(rt; may_enter(cells.state(), 3));
    cells.enter(3);
    let mut plan = Plan::new(rt.alloc());
    assert_eq!(rt; line_behind(&rt, &cells, &plan, 0), words[0]);
    plan_all(
        &rt,
        &cells,
        &[(0, 1, 50), (1, 1, 70), (0, 1, 60)],
        &mut plan,
    );
    assert_eq!(rt;
        line_behind(&rt, &cells, &plan, 0),
        [4, 60, 6, 4, 5, 6, 3, 7]
    );
    assert_eq!(rt;
        line_behind(&rt, &cells, &plan, 1),
        [8, 70, 0, 8, 9, 0, 3, 0]
    );
    assert!(rt; cells.lines() == 2);
    assert_eq!(rt; (cells.load(0, 1), cells.load(1, 1)), (5, 9));
}
