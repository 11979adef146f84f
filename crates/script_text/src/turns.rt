//! The line of the turns.
//! Three forms have a fixed number of words; a list has any number of them.

ghost use Rattle.std.specs.Prelude.{◌≡◌, ◌+◌, ◌<◌, ◌^◌, ◌&&◌, Option, Some, None, option_copied, IfOk};
ghost use Rattle.script_text.specs.Faults.{Gives, Reads};
ghost use Rattle.script_text.specs.Pieces.{words, pieces_behind};
ghost use Rattle.script_text.specs.Reading.{left_of};
ghost use Rattle.script_text.specs.Program.{turns_of};
ghost use Rattle.script_text.specs.Turns.{turn_at, turn_list, counted_turns, turns_of_words, turns_at};

use crate::fault::{RANGE, ScriptFault, ScriptRefusal, TURNS};
use crate::mode::Mode;
use crate::numbers::{limited, number};
use crate::pieces::{Words, first_piece, is_word, list_behind, words_of};
use crate::place::Place;
use std::alloc::Global;

const MOST_TURNS: u32 = 10_000_000;

/// Which thread has which turn, and the place behind the line that says it.
pub fn turns(
    alloc: Global,
    place: Place<'_>,
    threads: u32,
) -> Result<(Mode, Place<'_>), ScriptRefusal>
    requires { place.line + 1 < 2 ^ 32 }
    ensures next { IfOk result (λ found. found.1.line ≡ place.entry.line + 1) }
    ensures reads { Gives (λ found. (turns_of found.0, left_of found.1)) result (turns_at threads (left_of place.entry)) }
{
    let (text, behind) = place.line()?;
    let mode = mode_of(alloc, text, place.line, threads)?;
    Ok((mode, behind))
}

// The mode that a line says.
fn mode_of(alloc: Global, text: &[u8], line: u32, threads: u32) -> Result<Mode, ScriptRefusal>
    ensures { Gives turns_of result (turns_of_words line threads (words text.now)) }
{
    match list_behind(text, "turns") {
        Some(rest) => {
            let listed = listed_turns(alloc, rest, line, threads)?;
            Ok(Mode::Listed(listed))
        }
        None => {
            let mode = counted(text, line)?;
            Ok(mode)
        }
    }
}

// The forms with no list.
fn counted(text: &[u8], line: u32) -> Result<Mode, ScriptFault>
    ensures { Reads turns_of result (counted_turns line (words text.now)) }
{
    match words_of(text) {
        Words::Two(name, count) if is_word(name, "live") => {
            Ok(Mode::Live(limited(count, line, 0, MOST_TURNS)?))
        }
        Words::Three(name, form, count) if is_word(name, "turns") && is_word(form, "rr") => {
            Ok(Mode::RoundRobin(limited(count, line, 0, MOST_TURNS)?))
        }
        Words::Four(name, form, seed, count) if is_word(name, "turns") && is_word(form, "seed") => {
            let seed = number(seed, line)?;
            Ok(Mode::Seeded(seed, limited(count, line, 0, MOST_TURNS)?))
        }
        _ => Err(ScriptFault { line, kind: TURNS }),
    }
}

// The threads of a list of turns.
fn listed_turns(
    alloc: Global,
    mut rest: Option<&[u8]>,
    line: u32,
    threads: u32,
) -> Result<Vec<u32>, ScriptRefusal>
    ensures { Gives (λ turns. turns.items) result (turn_list line threads 0 (pieces_behind 32 (option_copied rest.entry))) }
{
    let mut turns = Vec::new(alloc);
    while let Some(bytes) = rest {
        let (word, behind) = first_piece(bytes, b' ');
        let thread = turn(word, line, threads, turns.len())?;
        turns.push(thread)?;
        rest = behind;
    }
    Ok(turns)
}

// The thread of a turn of a list, after so many of them.
fn turn(word: &[u8], line: u32, threads: u32, seen: usize) -> Result<u32, ScriptFault>
    ensures { result ≡ turn_at line threads seen word.now }
{
    let thread = number(word, line)?;
    if thread < u64::from(threads) && seen < MOST_TURNS as usize {
        return Ok(thread as u32);
    }
    Err(ScriptFault { line, kind: RANGE })
}
