//! Lines that are settled, and the lines of the settings.
//! Each reader takes a place in the text and gives the place behind what it read.

ghost use Rattle.std.specs.Prelude.{◌≡◌, ◌+◌, ◌<◌, ◌≤◌, ◌^◌, length, IfOk};
ghost use Rattle.script_text.specs.Faults.{Reads};
ghost use Rattle.script_text.specs.Reading.{left_of};
ghost use Rattle.script_text.specs.Pieces.{words};
ghost use Rattle.script_text.specs.Head.{fixed_line_at, setting_of_words, setting_at, settings_at};
ghost use Rattle.seq_object.specs.Sizes.{IsValid};

use crate::fault::{SETTING, ScriptFault};
use crate::numbers::limited;
use crate::pieces::{Words, is_word, words_of};
use crate::place::Place;
use seq_object::{LEAST_LINES, MOST_EVERY, MOST_LINES, MOST_SHARDS, MOST_THREADS, Settings};

/// A line that has to be this text, and else is a fault of this kind. The place behind it.
pub fn fixed_line<'a>(place: Place<'a>, text: &str, kind: u32) -> Result<Place<'a>, ScriptFault>
    requires { place.line + 1 < 2 ^ 32 }
    ensures next { IfOk result (λ behind. behind.line ≡ place.entry.line + 1) }
    ensures shorter { IfOk result (λ behind. length behind.rest.now < length place.entry.rest.now) }
    ensures reads { Reads left_of result (fixed_line_at kind text.now (left_of place.entry)) }
{
    let (found, behind) = place.line()?;
    if is_word(found, text) {
        return Ok(behind);
    }
    Err(ScriptFault {
        line: place.line,
        kind,
    })
}

/// A setting's number, of the words of its line.
pub fn setting_of(
    text: &[u8],
    line: u32,
    name: &str,
    low: u32,
    high: u32,
) -> Result<u32, ScriptFault>
    ensures within { IfOk result (λ number. (low ≤ number) × (number ≤ high)) }
    ensures reads { result ≡ setting_of_words line name.now low high (words text.now) }
{
    match words_of(text) {
        Words::Two(found, number) => {
            if is_word(found, name) {
                return limited(number, line, low, high);
            }
            Err(ScriptFault {
                line,
                kind: SETTING,
            })
        }
        _ => Err(ScriptFault {
            line,
            kind: SETTING,
        }),
    }
}

/// A setting, and the place behind its line.
pub fn setting<'a>(
    place: Place<'a>,
    name: &str,
    low: u32,
    high: u32,
) -> Result<(u32, Place<'a>), ScriptFault>
    requires { place.line + 1 < 2 ^ 32 }
    ensures next { IfOk result (λ found. found.1.line ≡ place.entry.line + 1) }
    ensures shorter { IfOk result (λ found. length found.1.rest.now < length place.entry.rest.now) }
    ensures within { IfOk result (λ found. (low ≤ found.0) × (found.0 ≤ high)) }
    ensures reads { Reads (λ found. (found.0, left_of found.1)) result (setting_at name.now low high (left_of place.entry)) }
{
    let (text, behind) = place.line()?;
    let number = setting_of(text, place.line, name, low, high)?;
    Ok((number, behind))
}

/// The settings, and the place behind their lines.
pub fn settings(place: Place<'_>) -> Result<(Settings, Place<'_>), ScriptFault>
    requires { place.line + 4 < 2 ^ 32 }
    ensures next { IfOk result (λ found. found.1.line ≡ place.entry.line + 4) }
    ensures within { IfOk result (λ found. IsValid found.0) }
    ensures reads { Reads (λ found. (found.0, left_of found.1)) result (settings_at (left_of place.entry)) }
{
    let (threads, place) = setting(place, "threads", 1, MOST_THREADS)?;
    let (shards, place) = setting(place, "shards", 1, MOST_SHARDS)?;
    let (lines, place) = setting(place, "lines", LEAST_LINES, MOST_LINES)?;
    let (every, place) = setting(place, "every", 1, MOST_EVERY)?;
    let settings = Settings {
        threads,
        shards,
        lines,
        every,
    };
    Ok((settings, place))
}
