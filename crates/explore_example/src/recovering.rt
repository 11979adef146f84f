//! A recovery as it runs: its events happen to the lines one after the other.

ghost use Rattle.std.specs.Prelude.{◌≡◌, ◌+◌, ◌<◌, ◌^◌, IfOk, OnOk, length, map};
ghost use Rattle.line_memory.specs.Line.{quiet_line};
ghost use Rattle.crash_explorer.specs.Cut.{IsRecovered, bare, outcome_state};
ghost use Rattle.explore_example.specs.declared.event.Event.TheVariants.{Store, WriteBack, Fence};
ghost use Rattle.explore_example.specs.Recoveries.{worked, all_worked, records_of, recovery_by, no_recovery, recovery_of};

use crate::event::Event;
use crate::mistake::Mistake;
use crate::store::recovery;
use crash_explorer::{Outcome, Recovered};
use line_memory::Bank;
use std::alloc::{AllocError, Global};

/// A store happens to the lines. The room for it is made before. Where there is no such word it changes nothing.
#[tactic(auto, using(crate::proofs::Worked::bare_length, crate::proofs::Worked::store_worked))]
fn work_store(bank: &mut Bank, line: u32, word: u32, value: u64) -> Result<(), AllocError>
    ensures { OnOk result (bare bank.new.lines ≡ worked (Store line word value) (bare bank.old.lines)) }
{
    if line >= bank.lines() || word >= 8 {
        return Ok(());
    }
    bank.reserve(line, 1)?;
    bank.store(line, word, value);
    Ok(())
}

/// A write-back happens to the lines. Where there is no such line it changes nothing.
#[tactic(auto, using(crate::proofs::Worked::bare_length, crate::proofs::Worked::write_back_worked))]
fn work_write_back(bank: &mut Bank, line: u32)
    ensures { bare bank.new.lines ≡ worked (WriteBack line) (bare bank.old.lines) }
{
    if line < bank.lines() {
        bank.write_back(line);
    }
}

/// A fence happens to the lines.
#[tactic(auto, using(crate::proofs::Worked::fence_worked))]
fn work_fence(bank: &mut Bank)
    ensures { bare bank.new.lines ≡ worked Fence (bare bank.old.lines) }
{
    bank.fence();
}

/// An event of a recovery happens to the lines.
fn work(bank: &mut Bank, event: Event) -> Result<(), AllocError>
    ensures { OnOk result (bare bank.new.lines ≡ worked event (bare bank.old.lines)) }
{
    match event {
        Event::Store(line, word, value) => work_store(bank, line, word, value),
        Event::WriteBack(line) => {
            work_write_back(bank, line);
            Ok(())
        }
        Event::Fence => {
            work_fence(bank);
            Ok(())
        }
        Event::Write(_, _) | Event::Closing | Event::Closed => Ok(()),
    }
}

/// The lines in work behind these events of recovery, where a cut left these words.
#[tactic(auto, using(crate::proofs::Worked::bare_quiet))]
fn lines_worked(alloc: Global, left: Vec<[u64; 8]>, events: &[Event]) -> Result<Bank, AllocError>
    requires { length left.items < 2 ^ 32 }
    ensures { IfOk result (λ bank. bare bank.lines ≡ all_worked events.now (map quiet_line left.items)) }
{
    let mut bank = Bank::of(alloc, left)?;
    for event in events {
        work(&mut bank, *event)?;
    }
    Ok(bank)
}

/// The records of the two cells by load; without their lines there is no state.
#[tactic(auto, using(crate::proofs::Worked::bare_length, crate::proofs::Worked::bare_line))]
fn records(alloc: Global, bank: &Bank) -> Result<Outcome, AllocError>
    ensures { IfOk result (λ outcome. outcome_state outcome ≡ records_of (bare bank.now.lines)) }
{
    if bank.lines() != 3 {
        return Ok(Outcome::Refused);
    }
    let mut state = Vec::with_capacity(alloc, 2)?;
    state.push(bank.load(1, 0))?;
    state.push(bank.load(2, 0))?;
    Ok(Outcome::State(state))
}

/// The first so many of these events of recovery, where a cut left these words, and what they come to.
fn recovered_by(
    alloc: Global,
    events: &[Event],
    left: Vec<[u64; 8]>,
    steps: u32,
) -> Result<Recovered, AllocError>
    requires { length left.items < 2 ^ 32 }
    ensures { IfOk result (IsRecovered (recovery_by events.now steps left.items)) }
{
    let made = events.len().min(steps as usize);
    let bank = lines_worked(alloc, left, &events[..made])?;
    let outcome = if events.len() <= steps as usize {
        records(alloc, &bank)?
    } else {
        Outcome::Endless
    };
    Ok(Recovered {
        events: made as u32,
        bank,
        outcome,
    })
}

/// The recovery from these words of a store with this mistake, in so many steps at the most. Of words that are not three lines, or whose
/// epoch is the last, it makes nothing.
pub fn recovered(
    alloc: Global,
    mistake: Mistake,
    left: Vec<[u64; 8]>,
    steps: u32,
) -> Result<Recovered, AllocError>
    ensures { IfOk result (IsRecovered (recovery_of mistake steps left.items)) }
{
    if !(left.len() == 3 && left[0][0] < u64::MAX) {
        return refused(alloc);
    }
    let events = recovery(alloc, mistake, left[0][0], &left[1], &left[2])?;
    recovered_by(alloc, events.as_slice(), left, steps)
}

/// A recovery that refuses the words.
fn refused(alloc: Global) -> Result<Recovered, AllocError>
    ensures { IfOk result (IsRecovered no_recovery) }
{
    let bank = Bank::of(alloc, Vec::new(alloc))?;
    Ok(Recovered {
        events: 0,
        bank,
        outcome: Outcome::Refused,
    })
}
