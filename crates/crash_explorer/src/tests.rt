//! A store of one line, on which two words are set one after the other, tried at each power cut. What the answers are was worked out by
//! hand: behind event 1 one store is pending and leaves two survivors, behind event 2 two stores leave three. A careless store's recovery
//! sets word 1 to 9 and then to what it was: behind its event 1 one store is pending and leaves two survivors, behind its event 2 two
//! stores leave three. So each recovery has five survivors inside, to depth 1, and each of these five again, to depth 2.

ghost use Rattle.std.specs.Prelude.{◌≡◌, ◌+◌, ◌<◌, [], IfOk, OnOk, length, nat_lt, slice_index, slice_index_or};
ghost use Rattle.crash_explorer.specs.Cut.{IsRecovered, bare};
ghost use Rattle.crash_explorer.specs.Tests.{word_set, first_two, put, worked, recovery_of, no_recovery, cut_of, allowed_by};

use crate::{Answer, Outcome, Plan, Recovered, Silent, Subject, Tally, Watcher, explore};
use line_memory::Bank;
use std::alloc::{AllocError, Global};
use std::test::Fail;

/// The store: how many words it set, and whether its recovery is careless. A state is allowed where word 1 is below `limit`, and where
/// both words are set or none, if that is asked for.
#[derive(Drop)]
struct Pair {
    bank: Bank,
    set: u32,
    is_careless: bool,
    is_both: bool,
    limit: u64,
}

impl Pair {
    fn of(alloc: Global, is_careless: bool, is_both: bool, limit: u64) -> Result<Pair, AllocError> {
        let mut base = Vec::new(alloc);
        base.push([0; 8])?;
        let mut bank = Bank::of(alloc, base)?;
        if bank.lines() > 0 {
            bank.reserve(0, 2)?;
        }
        Ok(Pair {
            bank,
            set: 0,
            is_careless,
            is_both,
            limit,
        })
    }
}

/// Sets a word of the line.
fn set_word(bank: &mut Bank, word: u32, value: u64)
    requires { word < 8 }
    ensures { bank.new ≡ word_set bank.old word value }
{
    if bank.lines() > 0 && bank.spare(0) > 0 {
        bank.store(0, word, value);
    }
}

/// The state of a line.
fn state_of(alloc: Global, line: &[u64; 8]) -> Result<Vec<u64>, AllocError>
    ensures { IfOk result (λ state. state.items ≡ first_two line.now) }
{
    let mut state = Vec::with_capacity(alloc, 2)?;
    state.push(line[0])?;
    state.push(line[1])?;
    Ok(state)
}

/// Stores to word 1 of the line, with room made before.
fn put_word(bank: &mut Bank, value: u64) -> Result<(), AllocError>
    requires { 0 < length bank.old.lines }
    ensures lines { OnOk result (bare bank.new.lines ≡ put (bare bank.old.lines) value) }
    ensures some { OnOk result (length bank.new.lines ≡ length bank.old.lines) }
{
    bank.reserve(0, 1)?;
    bank.store(0, 1, value);
    Ok(())
}

/// The lines in work behind so many events of recovery.
#[tactic(auto, using(crate::proofs::Lines::bare_quiet, crate::proofs::Lines::quiet_length))]
fn worked_lines(
    alloc: Global,
    left: Vec<[u64; 8]>,
    old: u64,
    events: u32,
) -> Result<Bank, AllocError>
    requires one { length left.items ≡ 1 }
    requires word { old ≡ slice_index (slice_index_or left.items 0 []) 1 }
    ensures { IfOk result (λ bank. bare bank.lines ≡ worked events left.items) }
{
    let mut bank = Bank::of(alloc, left)?;
    match events {
        0 => Ok(bank),
        1 => {
            put_word(&mut bank, 9)?;
            Ok(bank)
        }
        _ => {
            put_word(&mut bank, 9)?;
            put_word(&mut bank, old)?;
            Ok(bank)
        }
    }
}

/// A recovery of the one line that is left.
fn recovered(
    alloc: Global,
    is_careless: bool,
    left: Vec<[u64; 8]>,
    steps: u32,
) -> Result<Recovered, AllocError>
    ensures { IfOk result (IsRecovered (recovery_of is_careless steps left.items)) }
{
    if left.len() != 1 {
        return refused(alloc);
    }
    let line = left[0];
    let count = if is_careless { 2 } else { 0 };
    let events = steps.min(count);
    let outcome = if count <= steps {
        Outcome::State(state_of(alloc, &line)?)
    } else {
        Outcome::Endless
    };
    let bank = worked_lines(alloc, left, line[1], events)?;
    Ok(Recovered {
        events,
        bank,
        outcome,
    })
}

/// A recovery that refuses the words.
fn refused(alloc: Global) -> Result<Recovered, AllocError>
    ensures { IfOk result (IsRecovered no_recovery) }
{
    let bank = Bank::of(alloc, Vec::new(alloc))?;
    Ok(Recovered {
        events: 0,
        bank,
        outcome: Outcome::Refused,
    })
}

impl Subject for Pair {
    ghost cut = { λ s. cut_of s.bank.lines s.is_careless (allowed_by s.is_both s.limit) };

    ghost next = { λ s. record s { bank = word_set s.bank s.set 1; set = s.set + 1 } };

    ghost goes_on = { λ s. nat_lt s.set 2 };

    fn step(&mut self) -> Result<bool, AllocError> {
        if self.set >= 2 {
            return Ok(false);
        }
        set_word(&mut self.bank, self.set, 1);
        self.set += 1;
        Ok(true)
    }

    fn bank(&self) -> &Bank {
        &self.bank
    }

    fn recover(
        &self,
        alloc: Global,
        left: Vec<[u64; 8]>,
        steps: u32,
    ) -> Result<Recovered, AllocError> {
        recovered(alloc, self.is_careless, left, steps)
    }

    fn is_allowed(&self, state: &[u64]) -> bool {
        state.len() == 2 && state[1] < self.limit && (!self.is_both || state[0] == state[1])
    }
}

/// What a watcher was told: how often, and last.
#[derive(Clone, Copy, Debug, PartialEq, Eq)]
struct Told {
    times: u32,
    events: u32,
    survivors: u64,
}

impl Watcher for Told {
    ghost use Rattle.std.specs.Prelude.{◌≡◌};

    ghost tells = { λ old events survivors new. (new.events ≡ events) × (new.survivors ≡ survivors) };

    fn tell(&mut self, events: u32, survivors: u64) {
        self.times = self.times.saturating_add(1);
        self.events = events;
        self.survivors = survivors;
    }
}

/// A plan of so many events, such a budget and such a depth, with the seed 7, and two steps for a recovery.
fn plan_of(alloc: Global, events: u32, budget: u32, depth: u32) -> Result<Plan, AllocError> {
    let mut seeds = Vec::new(alloc);
    seeds.push(7)?;
    Ok(Plan {
        events,
        budget,
        seeds,
        steps: 2,
        depth,
    })
}

/// What a run of the careless store comes to where every state is allowed; `None` where a survivor is wrong.
fn tally_of(
    alloc: Global,
    events: u32,
    budget: u32,
    depth: u32,
) -> Result<Option<Tally>, AllocError> {
    let mut store = Pair::of(alloc, true, false, 10)?;
    let plan = plan_of(alloc, events, budget, depth)?;
    match explore(alloc, &mut store, &plan, &mut Silent)? {
        Answer::Right(tally) => Ok(Some(tally)),
        Answer::Wrong(_wrong) => Ok(None),
    }
}

#[test]
fn two_and_three_survivors_are_all(rt: HostRuntime) -> Result<(), Fail> {
    let tally = tally_of(rt.alloc(), 10, 3, 0)?;
    assert!(rt;
        tally
            == Some(Tally {
                events: 2,
                survivors: 5,
                all: true,
                ended: true
            })
    );
    Ok(())
}

/// Behind event 1 both survivors are tried, behind event 2 nothing kept, all kept and what the seed draws.
#[test]
fn three_of_three_are_a_sample_beyond_the_budget(rt: HostRuntime) -> Result<(), Fail> {
    let tally = tally_of(rt.alloc(), 2, 2, 0)?;
    assert!(rt;
        tally
            == Some(Tally {
                events: 2,
                survivors: 5,
                all: false,
                ended: false
            })
    );
    Ok(())
}

/// Five survivors, each with five inside its recovery.
#[test]
fn thirty_survivors_are_all_to_depth_one(rt: HostRuntime) -> Result<(), Fail> {
    let tally = tally_of(rt.alloc(), 10, 3, 1)?;
    assert!(rt;
        tally
            == Some(Tally {
                events: 2,
                survivors: 30,
                all: true,
                ended: true
            })
    );
    Ok(())
}

/// Five survivors, each with five inside its recovery, each of which has five inside its own.
#[test]
fn a_hundred_and_fifty_five_are_all_to_depth_two(rt: HostRuntime) -> Result<(), Fail> {
    let tally = tally_of(rt.alloc(), 10, 3, 2)?;
    assert!(rt;
        tally
            == Some(Tally {
                events: 2,
                survivors: 155,
                all: true,
                ended: true
            })
    );
    Ok(())
}

/// Behind event 1 both survivors are tried. Inside the recovery of each a cut has more than the budget.
#[test]
fn a_cut_inside_recovery_beyond_the_budget_is_not_all(rt: HostRuntime) -> Result<(), Fail> {
    let tally = tally_of(rt.alloc(), 1, 2, 1)?;
    assert!(rt;
        tally
            == Some(Tally {
                events: 1,
                survivors: 12,
                all: false,
                ended: false
            })
    );
    Ok(())
}

#[test]
fn a_word_alone_is_told(rt: HostRuntime) -> Result<(), Fail> {
    let alloc = rt.alloc();
    let mut store = Pair::of(alloc, false, true, 10)?;
    match explore(alloc, &mut store, &plan_of(alloc, 10, 3, 1)?, &mut Silent)? {
        Answer::Right(_tally) => assert!(rt; false),
        Answer::Wrong(wrong) => {
            assert!(rt; wrong.event == 1);
            assert!(rt; wrong.kept.as_slice() == [1u32].as_slice());
            assert!(rt; wrong.pending.as_slice() == [1u32].as_slice());
            assert!(rt; wrong.inside.len() == 0);
            match &wrong.outcome {
                Outcome::State(words) => assert!(rt; words.as_slice() == [1u64, 0].as_slice()),
                Outcome::Refused | Outcome::Endless => assert!(rt; false),
            }
        }
    }
    Ok(())
}

/// The careless store, of which word 1 is to be below 9: only a cut behind event 1 of its recovery shows that it is not.
#[test]
fn a_cut_inside_recovery_is_told(rt: HostRuntime) -> Result<(), Fail> {
    let alloc = rt.alloc();
    let mut store = Pair::of(alloc, true, false, 9)?;
    match explore(alloc, &mut store, &plan_of(alloc, 10, 3, 0)?, &mut Silent)? {
        Answer::Right(tally) => assert!(rt; tally.all && tally.survivors == 5),
        Answer::Wrong(_wrong) => assert!(rt; false),
    }
    let mut store = Pair::of(alloc, true, false, 9)?;
    match explore(alloc, &mut store, &plan_of(alloc, 10, 3, 1)?, &mut Silent)? {
        Answer::Right(_tally) => assert!(rt; false),
        Answer::Wrong(wrong) => {
            assert!(rt; wrong.event == 1);
            assert!(rt; wrong.kept.as_slice() == [0u32].as_slice());
            assert!(rt; wrong.inside.len() == 1);
            if wrong.inside.len() == 1 {
                let inside = &wrong.inside[0];
                assert!(rt; inside.event == 1);
                assert!(rt; inside.kept.as_slice() == [1u32].as_slice());
                assert!(rt; inside.pending.as_slice() == [1u32].as_slice());
            }
            match &wrong.outcome {
                Outcome::State(words) => assert!(rt; words.as_slice() == [0u64, 9].as_slice()),
                Outcome::Refused | Outcome::Endless => assert!(rt; false),
            }
        }
    }
    Ok(())
}

/// A recovery that needs two steps and may take one is endless, and is not cut.
#[test]
fn a_recovery_beyond_its_steps_is_told(rt: HostRuntime) -> Result<(), Fail> {
    let alloc = rt.alloc();
    let mut store = Pair::of(alloc, true, false, 10)?;
    let mut plan = plan_of(alloc, 10, 3, 1)?;
    plan.steps = 1;
    match explore(alloc, &mut store, &plan, &mut Silent)? {
        Answer::Right(_tally) => assert!(rt; false),
        Answer::Wrong(wrong) => {
            assert!(rt; wrong.event == 1);
            assert!(rt; wrong.inside.len() == 0);
            match &wrong.outcome {
                Outcome::Endless => {}
                Outcome::State(_) | Outcome::Refused => assert!(rt; false),
            }
        }
    }
    Ok(())
}

#[test]
fn a_watcher_is_told_once_of_each_of_two_events(rt: HostRuntime) -> Result<(), Fail> {
    let alloc = rt.alloc();
    let mut store = Pair::of(alloc, true, false, 10)?;
    let mut told = Told {
        times: 0,
        events: 0,
        survivors: 0,
    };
    let _answer = explore(alloc, &mut store, &plan_of(alloc, 10, 3, 1)?, &mut told)?;
    assert!(rt;
        told == Told {
            times: 2,
            events: 2,
            survivors: 30
        }
    );
    Ok(())
}
