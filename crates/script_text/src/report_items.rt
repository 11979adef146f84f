//! The entries and the marks of a report, in the order of its lines.
//! A mark covers the entries above it, and its epoch follows that of the mark before it.

ghost use Rattle.std.specs.Prelude.{◌≡◌, ◌+◌, ◌<◌, ◌^◌, length, IfOk};
ghost use Rattle.script_text.specs.Faults.{Gives};
ghost use Rattle.script_text.specs.Reading.{left_of};
ghost use Rattle.script_text.specs.ReportReading.{mark_at, items_at};

use crate::fault::{RANGE, ScriptFault, ScriptRefusal};
use crate::place::Place;
use crate::report_entries::entry;
use crate::report_reading::named;
use crate::report_rooms::begins;
use life_model::Mark;
use seq_object::Entry;
use std::alloc::Global;

/// The entries and the marks behind the line of this epoch, and the place of the first line that is of neither.
pub fn items(
    alloc: Global,
    place: Place<'_>,
    began: u32,
) -> Result<(Vec<Entry>, Vec<Mark>, Place<'_>), ScriptRefusal>
    requires { place.line + length place.rest.now + 1 < 2 ^ 32 }
    ensures near { IfOk result (λ found. found.2.line + length found.2.rest.now + 1 < 2 ^ 32) }
    ensures reads { Gives (λ found. ((found.0.items, found.1.items), left_of found.2)) result (items_at began 0 (left_of place.entry)) }
{
    let mut entries = Vec::new(alloc);
    let mut marks = Vec::new(alloc);
    let mut place = place;
    let mut last = began;
    loop {
        let (text, behind) = place.line()?;
        if begins(text, "entry") {
            let entry = entry(text, place.line)?;
            entries.push(entry)?;
        } else if begins(text, "saved") {
            let mark = mark(text, place.line, last, entries.len())?;
            marks.push(mark)?;
            last = mark.epoch;
        } else {
            return Ok((entries, marks, place));
        }
        place = behind;
    }
}

// The mark of a line behind so many entries, where this epoch was begun last.
fn mark(text: &[u8], line: u32, last: u32, seen: usize) -> Result<Mark, ScriptFault>
    ensures { result ≡ mark_at line last seen text.now }
{
    let epoch = named(text, line, "saved")?;
    if epoch == u64::from(last) + 1 && epoch <= u64::from(u32::MAX) {
        return Ok(Mark {
            epoch: epoch as u32,
            length: seen as u64,
        });
    }
    Err(ScriptFault { line, kind: RANGE })
}
