//! The sections of the threads: for each a line with its number, and then its commands.
//! A section stops at a line that ends it and leaves that line; what has to come there is judged by the next step.

ghost use Rattle.std.specs.Prelude.{◌≡◌, ◌+◌, ◌*◌, ◌<◌, ◌≤◌, ◌^◌, map, IfOk};
ghost use Rattle.script_text.specs.Faults.{Gives};
ghost use Rattle.script_text.specs.Reading.{left_of};
ghost use Rattle.script_text.specs.Sections.{ends_section, commands_at, section_line_at, section_at, sections_at};

use crate::commands::command;
use crate::fault::{ScriptFault, ScriptRefusal, THREAD, TOO_MANY};
use crate::head::fixed_line;
use crate::pieces::{first_piece, is_word};
use crate::place::Place;
use seq_object::Command;
use std::alloc::Global;

const MOST_COMMANDS: usize = 4096;

/// The sections of so many threads, and the place behind them.
pub fn sections(
    alloc: Global,
    place: Place<'_>,
    threads: u32,
) -> Result<(Vec<Vec<Command>>, Place<'_>), ScriptRefusal>
    requires near { place.line ≤ 8 }
    requires few { threads ≤ 16 }
    ensures near { IfOk result (λ found. found.1.line ≤ 8 + 4097 * threads) }
    ensures reads { Gives (λ found. (map (λ v. v.items) found.0.items, left_of found.1)) result (sections_at threads 0 (left_of place.entry)) }
{
    let mut sections = Vec::new(alloc);
    let mut place = place;
    for thread in 0..threads {
        let (commands, behind) = section(alloc, place, thread)?;
        sections.push(commands)?;
        place = behind;
    }
    Ok((sections, place))
}

// The section of a thread, and the place behind it.
fn section(
    alloc: Global,
    place: Place<'_>,
    thread: u32,
) -> Result<(Vec<Command>, Place<'_>), ScriptRefusal>
    requires { place.line < 2 ^ 31 }
    ensures near { IfOk result (λ found. found.1.line ≤ place.entry.line + 4097) }
    ensures reads { Gives (λ found. (found.0.items, left_of found.1)) result (section_at thread (left_of place.entry)) }
{
    let place = section_begin(alloc, place, thread)?;
    commands(alloc, place)
}

// The place behind the first line of a thread's section.
fn section_begin(alloc: Global, place: Place<'_>, thread: u32) -> Result<Place<'_>, ScriptRefusal>
    requires { place.line < 2 ^ 31 }
    ensures next { IfOk result (λ behind. behind.line ≡ place.entry.line + 1) }
    ensures reads { Gives left_of result (section_line_at thread (left_of place.entry)) }
{
    let wanted = format!(in alloc; "thread {thread}")?;
    let behind = fixed_line(place, wanted.as_str(), THREAD)?;
    Ok(behind)
}

// The commands up to the line at which the section ends, and the place of that line.
fn commands(alloc: Global, place: Place<'_>) -> Result<(Vec<Command>, Place<'_>), ScriptRefusal>
    requires { place.line < 2 ^ 31 + 1 }
    ensures near { IfOk result (λ found. found.1.line ≤ place.entry.line + 4096) }
    ensures reads { Gives (λ found. (found.0.items, left_of found.1)) result (commands_at 0 (left_of place.entry)) }
{
    let mut commands = Vec::new(alloc);
    let mut place = place;
    loop {
        let (text, behind) = place.line()?;
        if is_section_end(text) {
            return Ok((commands, place));
        }
        let command = command(text, place.line)?;
        if commands.len() >= MOST_COMMANDS {
            return Err(ScriptRefusal::Fault(ScriptFault {
                line: place.line,
                kind: TOO_MANY,
            }));
        }
        commands.push(command)?;
        place = behind;
    }
}

// Whether a section ends at this line.
fn is_section_end(text: &[u8]) -> bool
    ensures { result ≡ ends_section text.now }
{
    let (first, _) = first_piece(text, b' ');
    is_word(text, "end") || is_word(first, "thread")
}
