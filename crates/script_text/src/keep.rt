//! The line of what a cut keeps.
//! A list of lines ascends strictly, so one choice has one text.

ghost use Rattle.std.specs.Prelude.{◌≡◌, ◌+◌, ◌<◌, ◌^◌, ◌∷◌, [], option_copied, IfOk};
ghost use Rattle.script_text.specs.Faults.{Gives, Reads};
ghost use Rattle.script_text.specs.Pieces.{pieces, words, pieces_behind};
ghost use Rattle.script_text.specs.Reading.{left_of};
ghost use Rattle.script_text.specs.Program.{keeping_of};
ghost use Rattle.script_text.specs.Keep.{item_of_pieces, item_list, plain_keep, keep_of_words, keep_at};

use crate::fault::{KEEP, RANGE, ScriptFault, ScriptRefusal};
use crate::numbers::number;
use crate::pieces::{Words, first_piece, is_word, list_behind, words_of};
use crate::place::Place;
use std::alloc::Global;
use store_order::{Choice, Kept};

/// What a cut keeps, and the place behind the line that says it.
pub fn keep<'a>(
    alloc: Global,
    place: Place<'a>,
    all: u32,
) -> Result<(Choice, Place<'a>), ScriptRefusal>
    requires { place.line + 1 < 2 ^ 32 }
    ensures next { IfOk result (λ found. found.1.line ≡ place.entry.line + 1) }
    ensures reads { Gives (λ found. (keeping_of found.0, left_of found.1)) result (keep_at all (left_of place.entry)) }
{
    let (text, behind) = place.line()?;
    let choice = choice_of(alloc, text, place.line, all)?;
    Ok((choice, behind))
}

// The choice that a line says.
fn choice_of(alloc: Global, text: &[u8], line: u32, all: u32) -> Result<Choice, ScriptRefusal>
    ensures { Gives keeping_of result (keep_of_words line all (words text.now)) }
{
    match list_behind(text, "keep") {
        Some(rest) => {
            let items = items(alloc, rest, line, all)?;
            Ok(Choice::List(items))
        }
        None => {
            let choice = plain(text, line)?;
            Ok(choice)
        }
    }
}

// The forms with no list.
fn plain(text: &[u8], line: u32) -> Result<Choice, ScriptFault>
    ensures { Reads keeping_of result (plain_keep line (words text.now)) }
{
    match words_of(text) {
        Words::Two(name, form) if is_word(name, "keep") && is_word(form, "none") => {
            Ok(Choice::Nothing)
        }
        Words::Two(name, form) if is_word(name, "keep") && is_word(form, "all") => Ok(Choice::All),
        Words::Three(name, form, seed) if is_word(name, "keep") && is_word(form, "seed") => {
            Ok(Choice::Seed(number(seed, line)?))
        }
        _ => Err(ScriptFault { line, kind: KEEP }),
    }
}

// The items of a list, whose lines ascend.
fn items(
    alloc: Global,
    mut rest: Option<&[u8]>,
    line: u32,
    all: u32,
) -> Result<Vec<Kept>, ScriptRefusal>
    ensures { Gives (λ items. items.items) result (item_list line all 0 (pieces_behind 32 (option_copied rest.entry))) }
{
    let mut items = Vec::new(alloc);
    let mut low: u64 = 0;
    while let Some(bytes) = rest {
        let (word, behind) = first_piece(bytes, b' ');
        let kept = item(word, line, all, low)?;
        items.push(kept)?;
        low = u64::from(kept.line) + 1;
        rest = behind;
    }
    Ok(items)
}

// An item of a list, whose line is from low on.
fn item(word: &[u8], line: u32, all: u32, low: u64) -> Result<Kept, ScriptFault>
    ensures { result ≡ item_of_pieces line all low (pieces 58 word.now) }
{
    let (front, rest) = first_piece(word, b':');
    let Some(rest) = rest else {
        return Err(ScriptFault { line, kind: KEEP });
    };
    let (back, more) = first_piece(rest, b':');
    match more {
        Some(_) => Err(ScriptFault { line, kind: KEEP }),
        None => kept_of(front, back, line, all, low),
    }
}

// An item of its two numbers.
fn kept_of(front: &[u8], back: &[u8], line: u32, all: u32, low: u64) -> Result<Kept, ScriptFault>
    ensures { result ≡ item_of_pieces line all low (front.now ∷ back.now ∷ []) }
{
    let kept_line = number(front, line)?;
    let count = number(back, line)?;
    if kept_line < u64::from(all) && low <= kept_line && count <= u64::from(u32::MAX) {
        return Ok(Kept {
            line: kept_line as u32,
            count: count as u32,
        });
    }
    Err(ScriptFault { line, kind: RANGE })
}
