//! The held rooms of a report.
//! They ascend, so each line's room is judged by the one before it.

ghost use Rattle.std.specs.Prelude.{◌≡◌, ◌+◌, ◌<◌, ◌≤◌, ◌^◌, length, IfOk};
ghost use Rattle.script_text.specs.Faults.{Gives};
ghost use Rattle.script_text.specs.Reading.{left_of};
ghost use Rattle.script_text.specs.Pieces.{words};
ghost use Rattle.script_text.specs.ReportReading.{begins_with, held_at};

use crate::fault::ScriptRefusal;
use crate::head::setting_of;
use crate::pieces::{first_piece, is_word};
use crate::place::Place;
use std::alloc::Global;

const LAST_ROOM: u32 = 25;

/// The held rooms, and the place of the first line that names none.
pub fn held_rooms(alloc: Global, place: Place<'_>) -> Result<(Vec<u32>, Place<'_>), ScriptRefusal>
    requires { place.line + length place.rest.now + 1 < 2 ^ 32 }
    ensures near { IfOk result (λ found. found.1.line + length found.1.rest.now + 1 < 2 ^ 32) }
    ensures reads { Gives (λ found. (found.0.items, left_of found.1)) result (held_at 0 (left_of place.entry)) }
{
    let mut rooms = Vec::new(alloc);
    let mut place = place;
    let mut low = 0;
    loop {
        let (text, behind) = place.line()?;
        if !begins(text, "held") {
            return Ok((rooms, place));
        }
        let room = setting_of(text, place.line, "held", low, LAST_ROOM)?;
        rooms.push(room)?;
        low = room + 1;
        place = behind;
    }
}

/// Whether the first word of a line is this one.
pub fn begins(text: &[u8], name: &str) -> bool
    ensures { result ≡ begins_with name.now (words text.now) }
{
    let (first, _) = first_piece(text, b' ');
    is_word(first, name)
}
