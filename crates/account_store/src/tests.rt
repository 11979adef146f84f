//! Two accounts, of 10 and of 20, through a transfer of 3 and a checkpoint, cut behind every event. What is recovered was worked out by
//! hand: a transfer has ten stores, five on each account; a checkpoint writes two accounts back, fences them, and stores, writes back and
//! fences the next epoch.

ghost use Rattle.std.specs.Prelude.{◌≡◌};
ghost use Rattle.epoch_cells.specs.Cells.{IsAtRest};

use crate::{AccountStore, cut_law};
use line_memory::Bank;
use std::alloc::Global;
use std::process::Abort;
use store_order::{Choice, survive};

/// The balances of two accounts, at rest.
fn balances_of(rt: &impl Abort, store: &AccountStore) -> [u64; 2] {
    assert!(rt; store.is_at_rest() && store.count() == 2);
    [store.balance(0), store.balance(1)]
}

/// The balances that are recovered from what this choice leaves of two accounts now.
fn after_cut(rt: &impl Abort, alloc: Global, store: &AccountStore, choice: &Choice) -> [u64; 2] {
    let (accounts, epoch) = store.banks();
    assert!(rt; accounts.lines() == 2 && epoch.lines() == 1);
    let accounts = survive(alloc, accounts, choice, 0).expect(rt, "memory");
    let epoch = survive(alloc, epoch, choice, 2).expect(rt, "memory");
    assert!(rt; accounts.len() == 2 && epoch.len() == 1);
    let accounts = Bank::of(alloc, accounts).expect(rt, "memory");
    let epoch = Bank::of(alloc, epoch).expect(rt, "memory");
    cut_law();
    let mut recovered = AccountStore::recover(alloc, accounts, epoch).expect(rt, "memory");
    recovered.finish();
    balances_of(rt, &recovered)
}

/// Makes so many events; behind each of them a cut that keeps nothing leaves the first balances, and one that keeps all the second.
fn make(
    rt: &impl Abort,
    alloc: Global,
    store: &mut AccountStore,
    events: u32,
    nothing: [u64; 2],
    all: [u64; 2],
) {
    for _ in 0..events {
        assert!(rt; store.step());
        assert!(rt; after_cut(rt, alloc, store, &Choice::Nothing) == nothing);
        assert!(rt; after_cut(rt, alloc, store, &Choice::All) == all);
    }
}

/// Two accounts at rest.
fn opened(rt: &impl Abort, alloc: Global) -> AccountStore {
    let mut store = AccountStore::new(alloc, [10u64, 20].as_slice()).expect(rt, "memory");
    store.finish();
    store
}

/// Begins a transfer of 3 from the first of two accounts to the second.
fn begin(rt: &impl Abort, store: &mut AccountStore) {
    assert!(rt; store.is_at_rest() && store.count() == 2);
    assert!(rt; store.balance(0) == 10 && store.balance(1) == 20);
    store.transfer(0, 1, 3).expect(rt, "memory");
}

#[test]
fn a_cut_behind_every_event(rt: HostRuntime) {
    let alloc = rt.alloc();
    let mut store = opened(&rt, alloc);
    begin(&rt, &mut store);
    make(&rt, alloc, &mut store, 10, [10, 20], [10, 20]);
    assert!(rt; store.is_at_rest());
    store.checkpoint();
    make(&rt, alloc, &mut store, 3, [10, 20], [10, 20]);
    make(&rt, alloc, &mut store, 2, [10, 20], [7, 23]);
    make(&rt, alloc, &mut store, 1, [7, 23], [7, 23]);
    assert!(rt; !store.step());
    assert!(rt; balances_of(&rt, &store) == [7, 23]);
}
