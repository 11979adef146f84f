//! Leave to go on, by the ends of threads: for one thread, and for all together.

ghost use Rattle.std.specs.Prelude.{◌≡◌, ◌↔◌};
ghost use Rattle.std.specs.List.{list_all, list_any};
ghost use Rattle.block_allow.specs.Verdicts.{leaves, is_ended, verdict_of, AreEnded, SomeLeaves};

use crate::judgement::Verdict;
use restart_point::ThreadEnd;

/// Whether a thread of this end may leave its restart point in an epoch, which began with an item in the queue or not.
pub fn may_leave(end: ThreadEnd, fed: bool) -> bool
    ensures { result ≡ leaves end fed }
{
    match end {
        ThreadEnd::Ready => true,
        ThreadEnd::Waits => fed,
        ThreadEnd::Ended => false,
    }
}

/// What the ends of all threads say of the life, where the next epoch would begin with an item in the queue or not.
pub fn verdict(ends: &[ThreadEnd], fed: bool) -> Verdict
    ensures is { result ≡ verdict_of ends.now fed }
    ensures finished { (result ≡ Verdict.Finished) ↔ AreEnded ends.now }
    ensures goes { (result ≡ Verdict.Goes) ↔ SomeLeaves ends.now fed }
{
    judged(ends, fed)
}

/// The verdict, by two looks at the ends.
fn judged(ends: &[ThreadEnd], fed: bool) -> Verdict
    ensures { result ≡ verdict_of ends.now fed }
{
    if are_ended(ends) {
        return Verdict::Finished;
    }
    if some_leaves(ends, fed) {
        return Verdict::Goes;
    }
    Verdict::Stalled
}

/// Whether each thread is at its script's end.
fn are_ended(ends: &[ThreadEnd]) -> bool
    ensures { result ≡ list_all is_ended ends.now }
{
    ends.iter().all(|end| matches!(end, ThreadEnd::Ended))
}

/// Whether some thread may leave.
fn some_leaves(ends: &[ThreadEnd], fed: bool) -> bool
    ensures { result ≡ list_any (λ end. leaves end fed) ends.now }
{
    ends.iter().any(|end| may_leave(*end, fed))
}
