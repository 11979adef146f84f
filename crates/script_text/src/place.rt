//! A place in a text: the bytes from there on, and the number of the next line.
//! A place is a value; reading gives the place behind what was read.

ghost use Rattle.std.specs.Prelude.{◌≡◌, ◌+◌, ◌<◌, ◌^◌, length, IfOk};
ghost use Rattle.script_text.specs.Faults.{Reads};
ghost use Rattle.script_text.specs.Reading.{left_of, line_at};

use crate::fault::{NO_END, ScriptFault};
use crate::pieces::first_piece;

/// Where reading has come to.
#[derive(Clone, Copy, Debug)]
pub struct Place<'a> {
    /// The bytes that are left.
    pub rest: &'a [u8],
    /// The number of the line that begins here, from 1.
    pub line: u32,
}

impl<'a> Place<'a> {
    /// The next line, and the place behind it.
    pub fn line(self) -> Result<(&'a [u8], Place<'a>), ScriptFault>
        requires { self.line + 1 < 2 ^ 32 }
        ensures next { IfOk result (λ found. found.1.line ≡ self.entry.line + 1) }
        ensures shorter { IfOk result (λ found. length found.1.rest.now < length self.entry.rest.now) }
        ensures reads { Reads (λ found. (found.0.now, left_of found.1)) result (line_at (left_of self.entry)) }
    {
        let (line, rest) = first_piece(self.rest, b'\n');
        match rest {
            Some(rest) => Ok((
                line,
                Place {
                    rest,
                    line: self.line + 1,
                },
            )),
            None => Err(ScriptFault {
                line: self.line,
                kind: NO_END,
            }),
        }
    }
}
