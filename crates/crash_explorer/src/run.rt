//! A run: event by event, with a cut behind each.

ghost use Rattle.std.specs.Prelude.{IfOk};
ghost use Rattle.crash_explorer.specs.Runs.{IsAnswer, AreTold, told_events};

use crate::answer::{Answer, Tally, Wrong};
use crate::counts::pending_counts;
use crate::cutting::try_cut;
use crate::effort::Effort;
use crate::plan::Plan;
use crate::subject::Subject;
use crate::verdict::{CutVerdict, Found, Miss};
use crate::watcher::Watcher;
use std::alloc::{AllocError, Global};

/// Drives the subject event by event and tries the survivors of a cut behind each, and of the cuts inside their recoveries to the plan's
/// depth, until one is wrong, the subject has no further event, or the plan's events are made. After each event behind which nothing is
/// wrong the watcher is told how many events were made and how many survivors were tried. What the answer says does not hang on the watcher.
/// Want of memory is the one refusal, that of the subject among it; the subject then stands behind some event.
pub fn explore<S: Subject, W: Watcher>(
    alloc: Global,
    subject: &mut S,
    plan: &Plan,
    watcher: &mut W,
) -> Result<Answer, AllocError>
    ensures answer { IfOk result (IsAnswer plan.now S.cut S.next S.goes_on subject.old subject.new) }
    ensures told { IfOk result (λ answer. AreTold plan.now S.cut S.next W.tells subject.old watcher.old (told_events answer) watcher.new) }
{
    let mut effort = Effort::none();
    for event in 0..plan.events {
        if !subject.step()? {
            return Ok(Answer::Right(Tally {
                events: event,
                survivors: effort.survivors,
                all: effort.all,
                ended: true,
            }));
        }
        let most = pending_counts(alloc, subject.bank())?;
        let verdict = try_cut(
            alloc,
            subject,
            subject.bank(),
            most.as_slice(),
            plan,
            plan.depth,
        )?;
        match verdict {
            CutVerdict::Clean(more) => effort = effort.and(more),
            CutVerdict::Wrong(found) => {
                let Found { kept, miss, .. } = found;
                let Miss { inside, outcome } = miss;
                return Ok(Answer::Wrong(Wrong {
                    event: event + 1,
                    kept,
                    pending: most,
                    inside,
                    outcome,
                }));
            }
        }
        watcher.tell(event + 1, effort.survivors);
    }
    Ok(Answer::Right(Tally {
        events: plan.events,
        survivors: effort.survivors,
        all: effort.all,
        ended: false,
    }))
}
