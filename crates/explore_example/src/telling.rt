//! What was found of a store, in words.

ghost use Rattle.std.specs.Prelude.{◌≡◌, ◌++◌, OnOk};
ghost use Rattle.std.specs.String.{string_bytes};
ghost use Rattle.explore_example.specs.Words.{state_text, line_text, lines_text, cut_text, inside_text, outcome_text, one_text, both_text, allowed_text, last_text, wrong_text, right_text, answer_text};
ghost use Rattle.explore_example.specs.Runs.{last_event};

use crate::running::Running;
use crash_explorer::{Answer, CutInside, Outcome, Tally, Wrong};
use std::alloc::AllocError;

/// Writes a state at the end.
fn push_state(out: &mut String, values: &[u64]) -> Result<(), AllocError>
    ensures { OnOk result (string_bytes out.new ≡ string_bytes out.old ++ state_text values.now) }
{
    write!(out, "{values:?}")
}

/// Writes at the end how many of its pending stores a line keeps, where it has any.
fn push_line(out: &mut String, line: usize, kept: u32, pending: u32) -> Result<(), AllocError>
    ensures { OnOk result (string_bytes out.new ≡ string_bytes out.old ++ line_text line kept pending) }
{
    if pending == 0 {
        return Ok(());
    }
    write!(out, ", line {line} keeps {kept} of {pending} stores")
}

/// Writes at the end what each line keeps.
fn push_lines(out: &mut String, kept: &[u32], pending: &[u32]) -> Result<(), AllocError>
    ensures { OnOk result (string_bytes out.new ≡ string_bytes out.old ++ lines_text 0 kept.now pending.now) }
{
    for line in 0..kept.len() {
        let stores = pending.get(line).copied().unwrap_or(0);
        push_line(out, line, kept[line], stores)?;
    }
    Ok(())
}

/// Writes at the end behind which event of recovery the power was cut, and what each line keeps.
fn push_cut(out: &mut String, cut: &CutInside) -> Result<(), AllocError>
    ensures { OnOk result (string_bytes out.new ≡ string_bytes out.old ++ cut_text cut.now) }
{
    write!(out, ", and behind event {} of its recovery", cut.event)?;
    let kept = cut.kept.as_slice();
    let pending = cut.pending.as_slice();
    push_lines(out, kept, pending)?;
    Ok(())
}

/// Writes at the end the cuts inside recovery.
fn push_inside(out: &mut String, cuts: &[CutInside]) -> Result<(), AllocError>
    ensures { OnOk result (string_bytes out.new ≡ string_bytes out.old ++ inside_text cuts.now) }
{
    for cut in cuts {
        push_cut(out, cut)?;
    }
    Ok(())
}

/// Writes at the end what recovery came to.
fn push_outcome(out: &mut String, outcome: &Outcome) -> Result<(), AllocError>
    ensures { OnOk result (string_bytes out.new ≡ string_bytes out.old ++ outcome_text outcome.now) }
{
    match outcome {
        Outcome::State(words) => {
            write!(out, ": recovers to ")?;
            push_state(out, words.as_slice())
        }
        Outcome::Refused => write!(out, ": recovery refuses it"),
        Outcome::Endless => write!(out, ": recovery does not end in time"),
    }
}

/// Writes at the end which checkpoints a cut may recover to now.
fn push_allowed(out: &mut String, store: &Running) -> Result<(), AllocError>
    ensures { OnOk result (string_bytes out.new ≡ string_bytes out.old ++ allowed_text store.now.is_closing store.now.saved store.now.values) }
{
    if store.is_closing() {
        push_both(out, store.saved(), store.values())
    } else {
        push_one(out, store.saved())
    }
}

/// Writes at the end that this checkpoint alone is allowed.
fn push_one(out: &mut String, saved: &[u64]) -> Result<(), AllocError>
    ensures { OnOk result (string_bytes out.new ≡ string_bytes out.old ++ one_text saved.now) }
{
    write!(out, ", allowed is ")?;
    push_state(out, saved)?;
    Ok(())
}

/// Writes at the end that these two checkpoints are allowed.
fn push_both(out: &mut String, saved: &[u64], next: &[u64]) -> Result<(), AllocError>
    ensures { OnOk result (string_bytes out.new ≡ string_bytes out.old ++ both_text saved.now next.now) }
{
    write!(out, ", allowed are ")?;
    push_state(out, saved)?;
    write!(out, " and ")?;
    push_state(out, next)?;
    Ok(())
}

/// Writes at the end what the event of this number does, which happened last.
fn push_last(out: &mut String, number: u32, store: &Running) -> Result<(), AllocError>
    ensures { OnOk result (string_bytes out.new ≡ string_bytes out.old ++ last_text number (last_event store.now)) }
{
    match store.last() {
        Some(event) => writeln!(out, "  event {number} {event}"),
        None => Ok(()),
    }
}

/// Writes at the end which cut leaves what, to which state that recovers, which states are allowed, and what the event of the cut does.
pub fn push_wrong(out: &mut String, store: &Running, wrong: &Wrong) -> Result<(), AllocError>
    ensures { OnOk result (string_bytes out.new ≡ string_bytes out.old ++ wrong_text store.now wrong.now) }
{
    write!(out, "  cut behind event {}", wrong.event)?;
    push_lines(out, wrong.kept.as_slice(), wrong.pending.as_slice())?;
    let cuts = wrong.inside.as_slice();
    push_inside(out, cuts)?;
    push_outcome(out, &wrong.outcome)?;
    push_allowed(out, store)?;
    writeln!(out)?;
    push_last(out, wrong.event, store)?;
    Ok(())
}

/// Writes at the end how much was tried, where each survivor that was tried is right.
pub fn push_right(out: &mut String, tally: &Tally) -> Result<(), AllocError>
    ensures { OnOk result (string_bytes out.new ≡ string_bytes out.old ++ right_text tally.now) }
{
    let all = if tally.all { "all" } else { "some" };
    let events = tally.events;
    let survivors = tally.survivors;
    writeln!(
        out,
        "  {all} survivors of {events} cuts, and of the cuts inside their recoveries, were tried and allowed: {survivors}"
    )
}

/// Writes an answer at the end. The store stands where the answer left it.
pub fn push_answer(out: &mut String, store: &Running, answer: &Answer) -> Result<(), AllocError>
    ensures { OnOk result (string_bytes out.new ≡ string_bytes out.old ++ answer_text store.now answer.now) }
{
    match answer {
        Answer::Right(tally) => push_right(out, tally),
        Answer::Wrong(wrong) => push_wrong(out, store, wrong),
    }
}
