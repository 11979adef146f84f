//! A store of 15 variables on 16 lines. Line 0 has the epoch in word 0. Each other line is a cell: word 0 its record, word 1 its backup,
//! word 2 its tag. Each variable is written once in epoch 1, and then the epoch is closed.

ghost use Rattle.std.specs.Prelude.{◌≡◌, ◌+◌, ◌<◌, ◌≤◌, ◌^◌, IfOk, OnOk, length, map};
ghost use Rattle.line_memory.specs.Line.{quiet_line};
ghost use Rattle.crash_explorer.specs.Cut.{IsRecovered, bare};
ghost use Rattle.explore_many.specs.Store.{happened, next, goes_on, cut_of, stored_at, written_at, fenced_all, restored, cost, restored_to, cost_to, ended, records_to, recovery_over, no_recovery, recovery_of};

use crash_explorer::{Outcome, Recovered, Subject};
use line_memory::Bank;
use std::alloc::{AllocError, Global};

/// How many variables there are.
pub const CELLS: u32 = 15;

/// What happens next.
#[derive(Clone, Copy, Debug, PartialEq, Eq)]
pub enum Event {
    /// A store is made: the number of the line, the number of the word in it, and the value.
    Store(u32, u32, u64),
    /// The line of this number is written back.
    WriteBack(u32),
    /// A fence is made.
    Fence,
}

/// A store: what was made of its events so far, and the values before and behind its epoch.
#[derive(Drop)]
pub struct Running {
    bank: Bank,
    events: Vec<Event>,
    at: usize,
    first: [u64; 15],
    last: [u64; 15],
}

/// The events: three stores for each write, the write-backs of all cells, a fence, the next epoch, its write-back and its fence.
fn events_of(alloc: Global) -> Result<Vec<Event>, AllocError> {
    let mut events = Vec::new(alloc);
    for line in 1..CELLS + 1 {
        events.push(Event::Store(line, 1, 0))?;
        events.push(Event::Store(line, 2, 1))?;
        events.push(Event::Store(line, 0, 10 + line as u64))?;
    }
    for line in 1..CELLS + 1 {
        events.push(Event::WriteBack(line))?;
    }
    events.push(Event::Fence)?;
    events.push(Event::Store(0, 0, 2))?;
    events.push(Event::WriteBack(0))?;
    events.push(Event::Fence)?;
    Ok(events)
}

impl Running {
    /// The store before its first event: its epoch is 1, and each line has room for eight stores.
    pub fn of(alloc: Global) -> Result<Running, AllocError> {
        let mut base = vec![in alloc; [0; 8]; 16]?;
        base[0][0] = 1;
        let mut bank = Bank::of(alloc, base)?;
        for line in 0..16 {
            if line < bank.lines() {
                bank.reserve(line, 8)?;
            }
        }
        Ok(Running {
            bank,
            events: events_of(alloc)?,
            at: 0,
            first: [0; 15],
            last: [11, 12, 13, 14, 15, 16, 17, 18, 19, 20, 21, 22, 23, 24, 25],
        })
    }

    /// An event happens.
    fn happen(&mut self, event: Event)
        ensures { self.new ≡ happened event self.old }
    {
        match event {
            Event::Store(line, word, value) => {
                if line < self.bank.lines() && word < 8 && self.bank.spare(line) > 0 {
                    self.bank.store(line, word, value);
                }
            }
            Event::WriteBack(line) => {
                if line < self.bank.lines() {
                    self.bank.write_back(line);
                }
            }
            Event::Fence => self.bank.fence(),
        }
    }
}

/// Makes a store. The room for it is made before.
#[tactic(auto, using(crate::proofs::Worked::bare_length, crate::proofs::Worked::store_worked))]
fn store(bank: &mut Bank, line: u32, word: u32, value: u64) -> Result<(), AllocError>
    requires line { line < length bank.old.lines }
    requires word { word < 8 }
    ensures lines { OnOk result (bare bank.new.lines ≡ stored_at (bare bank.old.lines) line word value) }
    ensures number { OnOk result (length bank.new.lines ≡ length bank.old.lines) }
{
    bank.reserve(line, 1)?;
    bank.store(line, word, value);
    Ok(())
}

/// Writes a line back.
#[tactic(auto, using(crate::proofs::Worked::bare_length, crate::proofs::Worked::write_back_worked))]
fn write_back(bank: &mut Bank, line: u32)
    requires { line < length bank.old.lines }
    ensures lines { bare bank.new.lines ≡ written_at (bare bank.old.lines) line }
    ensures number { length bank.new.lines ≡ length bank.old.lines }
{
    bank.write_back(line);
}

/// Makes a fence.
#[tactic(auto, using(crate::proofs::Worked::fence_worked))]
fn fence(bank: &mut Bank)
    ensures lines { bare bank.new.lines ≡ fenced_all (bare bank.old.lines) }
    ensures number { length bank.new.lines ≡ length bank.old.lines }
{
    bank.fence();
}

/// Restores a cell, where it is torn, and tells how many events that took.
#[tactic(auto, using(crate::proofs::Worked::bare_line))]
fn restore(bank: &mut Bank, epoch: u64, line: u32) -> Result<u32, AllocError>
    requires { line < length bank.old.lines }
    ensures lines { OnOk result (bare bank.new.lines ≡ restored epoch (bare bank.old.lines) line) }
    ensures number { OnOk result (length bank.new.lines ≡ length bank.old.lines) }
    ensures cost { IfOk result (λ n. n ≡ cost epoch (bare bank.old.lines) line) }
{
    if bank.load(line, 2) != epoch {
        return Ok(0);
    }
    let backup = bank.load(line, 1);
    store(bank, line, 0, backup)?;
    write_back(bank, line);
    Ok(2)
}

/// Restores all cells, and tells how many events that took.
fn restore_all(bank: &mut Bank, epoch: u64) -> Result<u32, AllocError>
    requires { length bank.old.lines ≡ 16 }
    ensures lines { OnOk result (bare bank.new.lines ≡ restored_to epoch (bare bank.old.lines) 15) }
    ensures number { OnOk result (length bank.new.lines ≡ 16) }
    ensures cost { IfOk result (λ n. n ≡ cost_to epoch (bare bank.old.lines) 15) }
    ensures few { IfOk result (λ n. n ≤ 30) }
{
    let mut events = 0;
    for cell in 0..15 {
        events += restore(bank, epoch, cell + 1)?;
    }
    Ok(events)
}

/// Ends a recovery with the next epoch.
fn end(bank: &mut Bank, epoch: u64) -> Result<(), AllocError>
    requires last { epoch + 1 < 2 ^ 64 }
    requires number { length bank.old.lines ≡ 16 }
    ensures lines { OnOk result (bare bank.new.lines ≡ ended epoch (bare bank.old.lines)) }
    ensures number { OnOk result (length bank.new.lines ≡ 16) }
{
    fence(bank);
    store(bank, 0, 0, epoch + 1)?;
    write_back(bank, 0);
    fence(bank);
    Ok(())
}

/// The records of all cells by load.
#[tactic(auto, using(crate::proofs::Worked::bare_line))]
fn records(alloc: Global, bank: &Bank) -> Result<Vec<u64>, AllocError>
    requires { length bank.now.lines ≡ 16 }
    ensures { IfOk result (λ state. state.items ≡ records_to (bare bank.now.lines) 15) }
{
    let mut state = Vec::with_capacity(alloc, 15)?;
    for cell in 0..15 {
        state.push(bank.load(cell + 1, 0))?;
    }
    Ok(state)
}

/// The recovery of an epoch over the words that a cut left.
#[tactic(auto, using(crate::proofs::Worked::bare_quiet))]
fn recovered(alloc: Global, left: Vec<[u64; 8]>, epoch: u64) -> Result<Recovered, AllocError>
    requires number { length left.items ≡ 16 }
    requires last { epoch + 1 < 2 ^ 64 }
    ensures { IfOk result (IsRecovered (recovery_over epoch (map quiet_line left.items))) }
{
    let mut bank = Bank::of(alloc, left)?;
    let events = restore_all(&mut bank, epoch)?;
    end(&mut bank, epoch)?;
    let state = records(alloc, &bank)?;
    Ok(Recovered {
        events: events + 4,
        bank,
        outcome: Outcome::State(state),
    })
}

/// A recovery that refuses the words.
fn refused(alloc: Global) -> Result<Recovered, AllocError>
    ensures { IfOk result (IsRecovered no_recovery) }
{
    let bank = Bank::of(alloc, Vec::new(alloc))?;
    Ok(Recovered {
        events: 0,
        bank,
        outcome: Outcome::Refused,
    })
}

impl Subject for Running {
    ghost cut = { cut_of };

    ghost next = { next };

    ghost goes_on = { goes_on };

    fn step(&mut self) -> Result<bool, AllocError> {
        if self.at >= self.events.len() {
            return Ok(false);
        }
        let event = self.events[self.at];
        self.at += 1;
        self.happen(event);
        Ok(true)
    }

    fn bank(&self) -> &Bank {
        &self.bank
    }

    fn recover(
        &self,
        alloc: Global,
        left: Vec<[u64; 8]>,
        steps: u32,
    ) -> Result<Recovered, AllocError> {
        if !(left.len() == 16 && left[0][0] < u64::MAX && steps >= 34) {
            return refused(alloc);
        }
        let epoch = left[0][0];
        recovered(alloc, left, epoch)
    }

    fn is_allowed(&self, state: &[u64]) -> bool {
        (self.at < 64 && state == self.first.as_slice())
            || (self.at >= 62 && state == self.last.as_slice())
    }
}
