//! The entry of a line of a report.
//! The line is cut at its equals sign; the last word before it and the first behind it are empty.

ghost use Rattle.std.specs.Prelude.{◌≡◌};
ghost use Rattle.script_text.specs.Faults.{no_command, fault};
ghost use Rattle.script_text.specs.Pieces.{words};
ghost use Rattle.script_text.specs.ReportReading.{call_of_words, bare_reply, value_reply, reply_of_words, entry_of_words, entry_at};

use crate::commands::{bare, with_pair, with_value};
use crate::fault::{COMMAND, ScriptFault};
use crate::numbers::{limited, number};
use crate::pieces::{Words, first_piece, is_word, words_of};
use seq_object::{Command, Entry, Reply};

const LAST_THREAD: u32 = 15;

const LAST_PLACE: u32 = 4095;

/// The entry of a line that begins as one.
pub fn entry(text: &[u8], line: u32) -> Result<Entry, ScriptFault>
    ensures { result ≡ entry_at line text.now }
{
    let (front, rest) = first_piece(text, b'=');
    let Some(rest) = rest else {
        return Err(no_entry(line));
    };
    let (last, more) = first_piece(rest, b'=');
    match more {
        Some(_) => Err(no_entry(line)),
        None => {
            let reply = reply_of(last, line)?;
            entry_of(front, line, reply)
        }
    }
}

// The fault of a line that is not of an entry.
fn no_entry(line: u32) -> ScriptFault
    ensures { result ≡ fault line no_command }
{
    ScriptFault {
        line,
        kind: COMMAND,
    }
}

// The entry with this reply, by what stands before the equals sign.
fn entry_of(front: &[u8], line: u32, reply: Reply) -> Result<Entry, ScriptFault>
    ensures { result ≡ entry_of_words line reply (words front.now) }
{
    let (name, rest) = first_piece(front, b' ');
    let Some(rest) = rest else {
        return Err(no_entry(line));
    };
    let (thread, rest) = first_piece(rest, b' ');
    let Some(rest) = rest else {
        return Err(no_entry(line));
    };
    let (index, rest) = first_piece(rest, b' ');
    if is_word(name, "entry") {
        let thread = limited(thread, line, 0, LAST_THREAD)?;
        let index = limited(index, line, 0, LAST_PLACE)?;
        let Some(rest) = rest else {
            return Err(no_entry(line));
        };
        let command = call_of(rest, line)?;
        return Ok(Entry {
            thread,
            index,
            command,
            reply,
        });
    }
    Err(no_entry(line))
}

// The command of an entry, by what stands before the equals sign and behind the entry's place.
fn call_of(text: &[u8], line: u32) -> Result<Command, ScriptFault>
    ensures { result ≡ call_of_words line (words text.now) }
{
    match words_of(text) {
        Words::Two(name, []) => bare(name, line),
        Words::Three(name, value, []) => with_value(name, value, line),
        Words::Four(name, key, value, []) => with_pair(name, key, value, line),
        _ => Err(no_entry(line)),
    }
}

// The reply of an entry, by what stands behind the equals sign.
fn reply_of(text: &[u8], line: u32) -> Result<Reply, ScriptFault>
    ensures { result ≡ reply_of_words line (words text.now) }
{
    match words_of(text) {
        Words::Two([], name) => bare_reply_of(name, line),
        Words::Three([], name, value) => value_reply_of(name, value, line),
        _ => Err(no_entry(line)),
    }
}

// A reply of one word.
fn bare_reply_of(name: &[u8], line: u32) -> Result<Reply, ScriptFault>
    ensures { result ≡ bare_reply line name.now }
{
    if is_word(name, "new") {
        return Ok(Reply::New);
    }
    if is_word(name, "full") {
        return Ok(Reply::Full);
    }
    if is_word(name, "none") {
        return Ok(Reply::Absent);
    }
    if is_word(name, "done") {
        return Ok(Reply::Done);
    }
    if is_word(name, "empty") {
        return Ok(Reply::Empty);
    }
    Err(no_entry(line))
}

// A reply of two words.
fn value_reply_of(name: &[u8], value: &[u8], line: u32) -> Result<Reply, ScriptFault>
    ensures { result ≡ value_reply line name.now value.now }
{
    if is_word(name, "old") {
        return Ok(Reply::Old(number(value, line)?));
    }
    if is_word(name, "is") {
        return Ok(Reply::Found(number(value, line)?));
    }
    if is_word(name, "was") {
        return Ok(Reply::Gone(number(value, line)?));
    }
    Err(no_entry(line))
}
