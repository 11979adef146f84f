//! A bank of one line and a bank of three, driven on by hand through an epoch and through a restore. The stores, the words
//! and the steps were worked out on paper.

ghost use Rattle.std.specs.Prelude.{◌≡◌, []};
ghost use Rattle.incll_var.specs.Cells.{AreSettled, IsRunning, MayRestore, epoch_of};
ghost use Rattle.incll_var.specs.Plans.{IsPlanned};

use crate::{CellRoom, PlannedCells};
use incll_var::{CellBank, CellState, Plan, RestoreStep};
use line_memory::Bank;
use std::alloc::Global;
use std::process::Abort;

/// The words of three lines, of which none was written to.
const FRESH: [[u64; 8]; 3] = [
    [1, 2, 3, 0, 0, 0, 0, 0],
    [4, 5, 6, 0, 0, 0, 0, 0],
    [7, 8, 9, 0, 0, 0, 0, 0],
];

/// What they are behind an epoch 1 in which the first and the last were written to.
const SAVED: [[u64; 8]; 3] = [
    [1, 2, 30, 1, 2, 3, 1, 0],
    [4, 5, 6, 0, 0, 0, 0, 0],
    [70, 80, 9, 7, 8, 9, 1, 0],
];

/// A bank with these words in memory, which it is made sure are settled at this epoch.
fn bank_of(rt: &impl Abort, alloc: Global, words: &[[u64; 8]], epoch: u32) -> Bank
    ensures { AreSettled epoch result.lines }
{
    let mut base = Vec::new(alloc);
    base.extend_from_slice(words).expect(rt, "memory");
    assert!(rt; base.len() < 100);
    let bank = Bank::of(alloc, base).expect(rt, "memory");
    for line in 0..bank.lines() {
        assert!(rt; bank.pending(line) == 0 && bank.base(line)[6] <= u64::from(epoch));
    }
    bank
}

/// Saved cells over these words, with no store left.
fn saved(rt: &impl Abort, alloc: Global, words: &[[u64; 8]], epoch: u32) -> PlannedCells
    ensures state { result.cells.state ≡ CellState.Saved epoch }
    ensures idle { result.plan.stores ≡ [] }
{
    let bank = bank_of(rt, alloc, words, epoch);
    let cells = CellBank::clean(alloc, bank, epoch).expect(rt, "memory");
    PlannedCells::of(cells, Plan::new(alloc))
}

/// Plans writes, each of a line, a word and a value, behind what is planned.
fn plan_writes(rt: &impl Abort, cells: &CellBank, writes: &[(u32, u32, u64)], plan: &mut Plan)
    requires running { IsRunning cells.now.state }
    requires planned { IsPlanned (epoch_of cells.now.state) cells.now.bank.lines plan.old.stores }
    ensures { IsPlanned (epoch_of cells.now.state) cells.now.bank.lines plan.new.stores }
{
    for &(line, word, value) in writes {
        assert!(rt; line < cells.lines() && word < 3);
        cells
            .plan_write(line, word, value, plan)
            .expect(rt, "memory");
    }
}

/// Begins these writes, whose stores are then left, with room for each.
#[tactic(auto, using(crate::proofs::TestPlans::still_planned))]
fn begin(rt: &impl Abort, room: &mut PlannedCells, writes: &[(u32, u32, u64)])
    requires running { IsRunning room.old.cells.state }
    requires idle { room.old.plan.stores ≡ [] }
    ensures { room.new.cells.state ≡ room.old.cells.state }
{
    let mut plan = room.take_plan();
    plan_writes(rt, room.cells(), writes, &mut plan);
    room.ready(&plan).expect(rt, "memory");
    room.put_plan(plan);
}

/// Makes the stores that are left, and says how many they were.
fn finish(room: &mut PlannedCells) -> u32
    ensures state { room.new.cells.state ≡ room.old.cells.state }
    ensures idle { room.new.plan.stores ≡ [] }
{
    let stores = room.left();
    while room.left() > 0 {
        room.step();
    }
    stores
}

/// Whether these stores, each a word and a value, are pending on the line, in this order.
fn has_pending(rt: &impl Abort, bank: &Bank, line: u32, stores: &[(u32, u64)]) -> bool {
    assert!(rt; line < bank.lines());
    let mut place = 0;
    for &store in stores {
        if place >= bank.pending(line) || bank.pending_at(line, place) != store {
            return false;
        }
        place += 1;
    }
    place == bank.pending(line)
}

/// Whether memory holds these words of a bank's lines, which are as many.
fn has_words(bank: &Bank, words: &[[u64; 8]]) -> bool {
    let mut line = 0;
    for &wanted in words {
        if line >= bank.lines() || bank.base(line) != wanted {
            return false;
        }
        line += 1;
    }
    line == bank.lines()
}

#[test]
fn a_write_on_one_line(rt: HostRuntime) {
    let mut room = saved(&rt, rt.alloc(), &[[4, 5, 6, 0, 0, 0, 2, 7]], 2);
    assert!(rt; room.is_idle());
    room.enter(3);
    begin(&rt, &mut room, &[(0, 1, 50)]);
    assert!(rt; room.left() == 5 && !room.is_idle());
    assert!(rt; room.step());
    assert!(rt; room.step());
    assert!(rt; room.step());
    assert!(rt; room.step());
    assert!(rt; !room.step());
    assert!(rt; room.is_idle() && room.cells().lines() == 1);
    assert_eq!(rt; room.load(0, 1), 50);
    let stores = [(3, 4), (4, 5), (5, 6), (6, 3), (1, 50)];
    assert!(rt; has_pending(&rt, room.bank(), 0, &stores));
}

/// Three lines in epoch 1, of which the last, the first and then the last were written to.
fn written(rt: &impl Abort, alloc: Global) -> PlannedCells
    ensures state { result.cells.state ≡ CellState.Running 1 }
    ensures idle { result.plan.stores ≡ [] }
{
    let mut room = saved(rt, alloc, &FRESH, 0);
    room.enter(1);
    begin(rt, &mut room, &[(2, 0, 70), (0, 2, 30), (2, 1, 80)]);
    assert!(rt; finish(&mut room) == 11);
    room
}

#[test]
fn a_closing_line_by_line(rt: HostRuntime) {
    let mut room = written(&rt, rt.alloc());
    let count = room.close_begin();
    assert!(rt; count == 2);
    assert!(rt; room.close_next());
    assert!(rt; room.bank().lines() == 3);
    assert!(rt; room.bank().asked(0) == 0 && room.bank().asked(2) == 6);
    assert!(rt; !room.close_next());
    room.close_fence();
    let bank = room.into_bank();
    assert!(rt; has_words(&bank, &SAVED));
    assert_eq!(rt; bank.write_backs(), 2);
}

#[test]
fn an_epoch_without_a_write(rt: HostRuntime) {
    let mut room = saved(&rt, rt.alloc(), &FRESH, 0);
    room.enter(1);
    let count = room.close_begin();
    assert!(rt; count == 0);
    assert!(rt; room.cells().state() == CellState::Saved(1));
    room.enter(2);
    let bank = room.into_bank();
    assert!(rt; has_words(&bank, &FRESH));
}

/// Cells that a cut in this epoch left over these words.
fn torn(rt: &impl Abort, alloc: Global, words: &[[u64; 8]], epoch: u32) -> PlannedCells
    ensures state { result.cells.state ≡ CellState.Torn epoch }
    ensures idle { result.plan.stores ≡ [] }
{
    let bank = bank_of(rt, alloc, words, epoch);
    let cells = CellBank::torn(alloc, bank, epoch).expect(rt, "memory");
    PlannedCells::of(cells, Plan::new(alloc))
}

/// Goes on with a restore by so many events, which all do this step.
fn restore(rt: &impl Abort, room: &mut PlannedCells, step: RestoreStep, events: u32)
    requires { MayRestore room.old.cells.state }
    ensures { MayRestore room.new.cells.state }
{
    for _ in 0..events {
        assert!(rt; room.restore_next() == step);
    }
}

#[test]
fn an_epoch_is_undone(rt: HostRuntime) {
    let mut room = torn(&rt, rt.alloc(), &SAVED, 1);
    restore(&rt, &mut room, RestoreStep::Stored, 6);
    restore(&rt, &mut room, RestoreStep::Wrote, 2);
    restore(&rt, &mut room, RestoreStep::Fenced, 1);
    restore(&rt, &mut room, RestoreStep::Finished, 2);
    assert!(rt; room.cells().state() == CellState::Saved(1));
    let bank = room.into_bank();
    let undone = [
        [1, 2, 3, 1, 2, 3, 1, 0],
        [4, 5, 6, 0, 0, 0, 0, 0],
        [7, 8, 9, 7, 8, 9, 1, 0],
    ];
    assert!(rt; has_words(&bank, &undone));
}

#[test]
fn a_line_of_an_earlier_epoch_stays(rt: HostRuntime) {
    let words = [[4, 50, 6, 4, 5, 6, 3, 7]];
    let mut room = torn(&rt, rt.alloc(), &words, 4);
    restore(&rt, &mut room, RestoreStep::Finished, 1);
    let bank = room.into_bank();
    assert!(rt; has_words(&bank, &words));
}
