//! The script of a whole text of the grammar.
//! The parts are read in order, so the first part that fails has the first fault.

ghost use Rattle.std.specs.Prelude.{◌≡◌, ◌+◌, ◌<◌, ◌^◌, IfOk};
ghost use Rattle.script_text.specs.Faults.{Gives, Reads};
ghost use Rattle.script_text.specs.Reading.{left_of};
ghost use Rattle.script_text.specs.Program.{Program, program_of};
ghost use Rattle.script_text.specs.Whole.{program_at, program_in, end_at, nothing_among};
ghost use Rattle.script_text.specs.Text.{IsScriptText};

use crate::fault::{AFTER, HEAD, ScriptFault, ScriptRefusal, THREAD};
use crate::head::{fixed_line, settings};
use crate::keep::keep;
use crate::place::Place;
use crate::script::Script;
use crate::sections::sections;
use crate::turns::turns;
use std::alloc::Global;

/// The script of a text, whatever its form, or the first fault by line and kind.
pub fn read_script(alloc: Global, text: &[u8]) -> Result<Script, ScriptRefusal>
    // What is read is the program whose text this is.
    ensures found { IfOk result (λ script. IsScriptText text.now (program_of script)) }
    // The text of a program gives it, unless memory runs out.
    ensures only { (p : Program) → IsScriptText text.now p → Gives program_of result (Ok p) }
    // Which fault it is.
    ensures first { Gives program_of result (program_in text.now) }
{
    read_whole(alloc, text)
}

// The script of a text, as reading from the front gives it.
fn read_whole(alloc: Global, text: &[u8]) -> Result<Script, ScriptRefusal>
    ensures { Gives program_of result (program_in text.now) }
{
    script_at(
        alloc,
        Place {
            rest: text,
            line: 1,
        },
    )
}

// The script of all that is left of a text.
fn script_at(alloc: Global, place: Place<'_>) -> Result<Script, ScriptRefusal>
    requires { place.line ≡ 1 }
    ensures { Gives program_of result (program_at (left_of place.entry)) }
{
    let place = fixed_line(place, "respct 1", HEAD)?;
    let (settings, place) = settings(place)?;
    let (mode, place) = turns(alloc, place, settings.threads)?;
    let (keep, place) = keep(alloc, place, settings.sizes().line_total())?;
    let (threads, place) = sections(alloc, place, settings.threads)?;
    end(place)?;
    Ok(Script {
        settings,
        mode,
        keep,
        threads,
    })
}

// The last line, and nothing behind it.
fn end(place: Place<'_>) -> Result<(), ScriptFault>
    requires { place.line + 1 < 2 ^ 32 }
    ensures { Reads (λ _. tt) result (end_at (left_of place.entry)) }
{
    let behind = fixed_line(place, "end", THREAD)?;
    nothing_behind(behind)
}

/// Nothing more.
pub fn nothing_behind(place: Place<'_>) -> Result<(), ScriptFault>
    ensures { Reads (λ _. tt) result (nothing_among (left_of place.entry).pieces place.entry.line) }
{
    if place.rest.is_empty() {
        return Ok(());
    }
    Err(ScriptFault {
        line: place.line,
        kind: AFTER,
    })
}
