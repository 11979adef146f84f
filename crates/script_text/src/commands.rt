//! The command of a line of a section.
//! The form of the line is judged first, then its numbers from left to right.

ghost use Rattle.std.specs.Prelude.{◌≡◌};
ghost use Rattle.script_text.specs.CommandWords.{bare_command, value_command, pair_command, command_at};

use crate::fault::{COMMAND, ScriptFault};
use crate::numbers::number;
use crate::pieces::{Words, is_word, words_of};
use seq_object::Command;

/// The command of a line.
pub fn command(text: &[u8], line: u32) -> Result<Command, ScriptFault>
    ensures { result ≡ command_at line text.now }
{
    match words_of(text) {
        Words::One(name) => bare(name, line),
        Words::Two(name, value) => with_value(name, value, line),
        Words::Three(name, key, value) => with_pair(name, key, value, line),
        _ => Err(ScriptFault {
            line,
            kind: COMMAND,
        }),
    }
}

/// A command of one word.
pub fn bare(name: &[u8], line: u32) -> Result<Command, ScriptFault>
    ensures { result ≡ bare_command line name.now }
{
    if is_word(name, "deq") {
        return Ok(Command::Deq);
    }
    if is_word(name, "take") {
        return Ok(Command::Take);
    }
    Err(ScriptFault {
        line,
        kind: COMMAND,
    })
}

/// A command of a word and a number.
pub fn with_value(name: &[u8], value: &[u8], line: u32) -> Result<Command, ScriptFault>
    ensures { result ≡ value_command line name.now value.now }
{
    if is_word(name, "get") {
        return Ok(Command::Get(number(value, line)?));
    }
    if is_word(name, "del") {
        return Ok(Command::Del(number(value, line)?));
    }
    if is_word(name, "enq") {
        return Ok(Command::Enq(number(value, line)?));
    }
    Err(ScriptFault {
        line,
        kind: COMMAND,
    })
}

/// A command of a word and two numbers.
pub fn with_pair(name: &[u8], key: &[u8], value: &[u8], line: u32) -> Result<Command, ScriptFault>
    ensures { result ≡ pair_command line name.now key.now value.now }
{
    if is_word(name, "put") {
        let key = number(key, line)?;
        return Ok(Command::Put(key, number(value, line)?));
    }
    Err(ScriptFault {
        line,
        kind: COMMAND,
    })
}
