//! One recovery from words that a cut left.

ghost use Rattle.std.specs.Prelude.{◌≡◌, ◌+◌, ◌<◌, ◌^◌, IfOk};
ghost use Rattle.crash_explorer.specs.Cut.{bare};
ghost use Rattle.crash_explorer.specs.Depth.{moment};
ghost use Rattle.crash_explorer.specs.Verdicts.{IsOnce};

use crate::leaving::copied_words;
use crate::outcome::Outcome;
use crate::recovered::Recovered;
use crate::subject::Subject;
use line_memory::Bank;
use std::alloc::{AllocError, Global};

/// What one recovery came to: how many events it made, and what it came to where that is not right.
#[derive(Debug, Drop)]
pub(crate) struct Once {
    pub(crate) events: u32,
    pub(crate) wrong: Option<Outcome>,
}

/// Recovers from these words, with no cut.
pub(crate) fn recover_once<S: Subject>(
    alloc: Global,
    subject: &S,
    left: &[[u64; 8]],
    steps: u32,
) -> Result<Once, AllocError>
    ensures { IfOk result (IsOnce steps (S.cut subject.now) left.now) }
{
    let Recovered {
        events,
        outcome,
        ..
    } = subject.recover(alloc, copied_words(alloc, left)?, steps)?;
    let right = match &outcome {
        Outcome::State(words) => subject.is_allowed(words.as_slice()),
        Outcome::Refused | Outcome::Endless => false,
    };
    Ok(Once {
        events,
        wrong: if right { None } else { Some(outcome) },
    })
}

/// The lines in work behind event number `i + 1` of the recovery from these words.
pub(crate) fn lines_behind<S: Subject>(
    alloc: Global,
    subject: &S,
    left: &[[u64; 8]],
    i: u32,
) -> Result<Bank, AllocError>
    requires { i + 1 < 2 ^ 32 }
    ensures { IfOk result (λ bank. bare bank.lines ≡ moment (S.cut subject.now) left.now i) }
{
    let Recovered { bank, .. } = subject.recover(alloc, copied_words(alloc, left)?, i + 1)?;
    Ok(bank)
}
