//! A cut and its survivors, one after the other; and inside the recovery of each the next cuts, to a depth.

ghost use Rattle.std.specs.Prelude.{◌≡◌, ◌<◌, ◌^◌, IfOk, length};
ghost use Rattle.crash_explorer.specs.Cut.{bare, pending_of};
ghost use Rattle.crash_explorer.specs.Verdicts.{IsCutVerdict, IsLeftVerdict, IsSampleVerdict, IsWholeVerdict};

use crate::counts::{advance, counted, pending_counts, zeros};
use crate::effort::Effort;
use crate::leaving::words_left;
use crate::plan::Plan;
use crate::recovering::{Once, lines_behind, recover_once};
use crate::sampling::sampled;
use crate::search::{Search, found_by, of_search, weighed};
use crate::subject::Subject;
use crate::verdict::{CutVerdict, LeftVerdict, Miss, miss_inside};
use line_memory::Bank;
use std::alloc::{AllocError, Global};

/// Recovers from these words that a cut left, and where the depth is not 0 tries the cut behind each event of that recovery, until
/// something is wrong.
#[cycle(depth)]
fn try_left<S: Subject>(
    alloc: Global,
    subject: &S,
    left: &[[u64; 8]],
    plan: &Plan,
    depth: u32,
) -> Result<LeftVerdict, AllocError>
    ensures { IfOk result (IsLeftVerdict plan.now (S.cut subject.now) depth left.now) }
{
    let Once { events, wrong } = recover_once(alloc, subject, left, plan.steps)?;
    match wrong {
        Some(outcome) => {
            return Ok(LeftVerdict::Wrong(Miss {
                inside: Vec::new(alloc),
                outcome,
            }));
        }
        None => {}
    }
    let mut effort = Effort::none();
    if depth == 0 {
        return Ok(LeftVerdict::Clean(effort));
    }
    for i in 0..events {
        let bank = lines_behind(alloc, subject, left, i)?;
        let most = pending_counts(alloc, &bank)?;
        let counts = most.as_slice();
        let verdict = try_cut(alloc, subject, &bank, counts, plan, depth - 1)?;
        match verdict {
            CutVerdict::Clean(more) => effort = effort.and(more),
            CutVerdict::Wrong(found) => {
                return Ok(LeftVerdict::Wrong(miss_inside(i + 1, most, found)?));
            }
        }
    }
    Ok(LeftVerdict::Clean(effort))
}

/// Tries the survivors of a cut of these lines: all of them, or beyond the budget a sample. `most` is how many stores are pending on each
/// line.
#[cycle(depth)]
pub(crate) fn try_cut<S: Subject>(
    alloc: Global,
    subject: &S,
    bank: &Bank,
    most: &[u32],
    plan: &Plan,
    depth: u32,
) -> Result<CutVerdict, AllocError>
    requires lines { most.now ≡ pending_of (bare bank.now.lines) }
    requires few { length most.now < 2 ^ 32 }
    ensures { IfOk result (IsCutVerdict plan.now (S.cut subject.now) depth (bare bank.now.lines)) }
{
    match counted(most, plan.budget) {
        Some(_survivors) => try_all(alloc, subject, bank, most, plan, depth),
        None => try_sample(alloc, subject, bank, most, plan, depth),
    }
}

/// Tries every survivor, and gives the first in order that is wrong: that which keeps the fewest stores.
#[cycle(depth)]
fn try_all<S: Subject>(
    alloc: Global,
    subject: &S,
    bank: &Bank,
    most: &[u32],
    plan: &Plan,
    depth: u32,
) -> Result<CutVerdict, AllocError>
    requires lines { most.now ≡ pending_of (bare bank.now.lines) }
    requires few { length most.now < 2 ^ 32 }
    ensures { IfOk result (IsWholeVerdict plan.now (S.cut subject.now) depth (bare bank.now.lines)) }
{
    let mut kept = zeros(alloc, most.len())?;
    let mut search = Search {
        best: None,
        effort: Effort::none(),
    };
    'survivors: loop {
        let counts = kept.as_slice();
        let left = words_left(alloc, bank, counts)?;
        let words = left.as_slice();
        let verdict = try_left(alloc, subject, words, plan, depth)?;
        search = weighed(alloc, search, counts, verdict)?;
        if !advance(&mut kept, most) {
            return Ok(of_search(search));
        }
    }
}

/// Tries the survivors of the plan's sample in their order, until one is wrong.
#[cycle(depth)]
fn try_sample<S: Subject>(
    alloc: Global,
    subject: &S,
    bank: &Bank,
    most: &[u32],
    plan: &Plan,
    depth: u32,
) -> Result<CutVerdict, AllocError>
    requires lines { most.now ≡ pending_of (bare bank.now.lines) }
    requires few { length most.now < 2 ^ 32 }
    ensures { IfOk result (IsSampleVerdict plan.now (S.cut subject.now) depth (bare bank.now.lines)) }
{
    let seeds = plan.seeds.as_slice();
    let mut effort = Effort::none();
    for j in 0..seeds.len() + 2 {
        let kept = sampled(alloc, most, seeds, j)?;
        let counts = kept.as_slice();
        let left = words_left(alloc, bank, counts)?;
        let words = left.as_slice();
        let verdict = try_left(alloc, subject, words, plan, depth)?;
        match verdict {
            LeftVerdict::Clean(inside) => effort = effort.and_survivor(inside),
            LeftVerdict::Wrong(miss) => return Ok(CutVerdict::Wrong(found_by(kept, miss))),
        }
    }
    Ok(CutVerdict::Clean(Effort {
        survivors: effort.survivors,
        all: false,
    }))
}
