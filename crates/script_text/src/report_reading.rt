//! The report of a text, or the first line that is not in its place.
//! A report is read in one go from the front, by its parts in their order; which fault a line has is not told.

ghost use Rattle.std.specs.Prelude.{◌≡◌, ◌+◌, ◌<◌, ◌^◌, length, IfOk, Ok};
ghost use Rattle.life_model.specs.Told.{ReportState};
ghost use Rattle.script_text.specs.Faults.{Gives, Reads};
ghost use Rattle.script_text.specs.Reading.{left_of};
ghost use Rattle.script_text.specs.Pieces.{words};
ghost use Rattle.script_text.specs.ReportText.{report_of};
ghost use Rattle.script_text.specs.ReportLimits.{IsReportText};
ghost use Rattle.script_text.specs.ReportReading.{life_of_text, life_at, named_of_words, flushed_at, outcome_of_text, outcome_at, report_at, report_in, GivesReport};

use crate::fault::{COMMAND, HEAD, SETTING, ScriptFault, ScriptRefusal};
use crate::head::{fixed_line, setting};
use crate::numbers::number;
use crate::pieces::{Words, is_word, words_of};
use crate::place::Place;
use crate::report::Report;
use crate::report_items::items;
use crate::report_rooms::held_rooms;
use crate::whole::nothing_behind;
use life_model::Outcome;
use std::alloc::Global;

const LAST_EPOCH: u32 = 4294967295;

/// Why there is no report.
#[derive(Clone, Copy, Debug, PartialEq, Eq)]
pub enum ReportRefusal {
    /// The text is none of a report, and this is the number of the first line that is not in its place, from 1; where text is missing
    /// or follows, that of the line behind the last.
    Fault(u32),
    /// There is not enough memory for the report.
    OutOfMemory,
}

/// The report of a text, or the first line that is not in its place.
pub fn read_report(alloc: Global, text: &[u8]) -> Result<Report, ReportRefusal>
    // The lines of the text can be counted.
    requires few { length text.now + 2 < 2 ^ 32 }
    // What is read is the report whose text this is.
    ensures found { IfOk result (λ report. IsReportText text.now (report_of report)) }
    // The text of a report gives it, unless memory runs out.
    ensures only { (r : ReportState) → IsReportText text.now r → GivesReport result (Ok r) }
    // Which line it is.
    ensures first { GivesReport result (report_in text.now) }
{
    match read_whole(alloc, text) {
        Ok(report) => Ok(report),
        Err(ScriptRefusal::Fault(fault)) => Err(ReportRefusal::Fault(fault.line)),
        Err(ScriptRefusal::OutOfMemory) => Err(ReportRefusal::OutOfMemory),
    }
}

// The report of a text, as reading from the front gives it.
fn read_whole(alloc: Global, text: &[u8]) -> Result<Report, ScriptRefusal>
    requires { length text.now + 2 < 2 ^ 32 }
    ensures { Gives report_of result (report_in text.now) }
{
    report_from(
        alloc,
        Place {
            rest: text,
            line: 1,
        },
    )
}

// The report of all that is left of a text.
fn report_from(alloc: Global, place: Place<'_>) -> Result<Report, ScriptRefusal>
    requires { place.line + length place.rest.now + 1 < 2 ^ 32 }
    ensures { Gives report_of result (report_at (left_of place.entry)) }
{
    let place = fixed_line(place, "respct-report 1", HEAD)?;
    let (resumed, place) = life(place)?;
    let (began, place) = setting(place, "began", 1, LAST_EPOCH)?;
    let (entries, marks, place) = items(alloc, place, began)?;
    let (held, place) = held_rooms(alloc, place)?;
    let (flushed, place) = flushed(place)?;
    let outcome = outcome(place)?;
    Ok(Report {
        resumed,
        began,
        entries,
        marks,
        held,
        flushed,
        outcome,
    })
}

// Whether a life went on from an image, and the place behind the line that says it.
fn life(place: Place<'_>) -> Result<(bool, Place<'_>), ScriptFault>
    requires { place.line + length place.rest.now + 1 < 2 ^ 32 }
    ensures near { IfOk result (λ found. found.1.line + length found.1.rest.now + 1 < 2 ^ 32) }
    ensures reads { Reads (λ found. (found.0, left_of found.1)) result (life_at (left_of place.entry)) }
{
    let (text, behind) = place.line()?;
    let resumed = life_of(text, place.line)?;
    Ok((resumed, behind))
}

// Whether a life went on from an image, by its line.
fn life_of(text: &[u8], line: u32) -> Result<bool, ScriptFault>
    ensures { result ≡ life_of_text line text.now }
{
    if is_word(text, "life start") {
        return Ok(false);
    }
    if is_word(text, "life resume") {
        return Ok(true);
    }
    Err(ScriptFault { line, kind: HEAD })
}

/// A number behind its name, by its line.
pub fn named(text: &[u8], line: u32, name: &str) -> Result<u64, ScriptFault>
    ensures { result ≡ named_of_words line name.now (words text.now) }
{
    match words_of(text) {
        Words::Two(found, value) => {
            if is_word(found, name) {
                return number(value, line);
            }
            Err(ScriptFault {
                line,
                kind: SETTING,
            })
        }
        _ => Err(ScriptFault {
            line,
            kind: SETTING,
        }),
    }
}

// The number of write-backs, and the place behind the line that says it.
fn flushed(place: Place<'_>) -> Result<(u64, Place<'_>), ScriptFault>
    requires { place.line + length place.rest.now + 1 < 2 ^ 32 }
    ensures near { IfOk result (λ found. found.1.line + length found.1.rest.now + 1 < 2 ^ 32) }
    ensures reads { Reads (λ found. (found.0, left_of found.1)) result (flushed_at (left_of place.entry)) }
{
    let (text, behind) = place.line()?;
    let flushed = named(text, place.line, "flushed")?;
    Ok((flushed, behind))
}

// How a life ended, with nothing behind the line that says it.
fn outcome(place: Place<'_>) -> Result<Outcome, ScriptFault>
    requires { place.line + length place.rest.now + 1 < 2 ^ 32 }
    ensures { result ≡ outcome_at (left_of place.entry) }
{
    let (text, behind) = place.line()?;
    let outcome = outcome_of(text, place.line)?;
    nothing_behind(behind)?;
    Ok(outcome)
}

// How a life ended, by its line.
fn outcome_of(text: &[u8], line: u32) -> Result<Outcome, ScriptFault>
    ensures { result ≡ outcome_of_text line text.now }
{
    if is_word(text, "end finished") {
        return Ok(Outcome::Finished);
    }
    if is_word(text, "end stalled") {
        return Ok(Outcome::Stalled);
    }
    if is_word(text, "end cut") {
        return Ok(Outcome::Cut);
    }
    if is_word(text, "end starved") {
        return Ok(Outcome::Starved);
    }
    Err(ScriptFault {
        line,
        kind: COMMAND,
    })
}
