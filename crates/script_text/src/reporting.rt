//! The text of a report: its entries and marks in order, the held rooms, and how the life ended.
//! One report has one text, which its definition gives letter for letter.

ghost use Rattle.std.specs.Prelude.{◌≡◌, ◌++◌, ◌-◌, [], ◌∷◌, map, length, take, OnOk, IfOk};
ghost use Rattle.std.specs.String.{string_bytes};
ghost use Rattle.life_model.specs.Life.{AreRising, lengths};
ghost use Rattle.script_text.specs.Text.{ended};
ghost use Rattle.script_text.specs.ReportText.{report_of, reply_text, entry_line, item_lines, held_line, life_line, front_lines, last_lines, report_bytes, AreMarksRising};

use crate::printing::push_command_words;
use crate::report::Report;
use life_model::{Mark, Outcome};
use seq_object::{Entry, Reply};
use std::alloc::{AllocError, Global};

/// The text of a report, each line with its line feed.
///
/// The marks have to stand in order: their lengths do not fall, and are at most the number of entries.
pub fn report_text(alloc: Global, report: &Report) -> Result<Vec<u8>, AllocError>
    requires { AreMarksRising (report_of report.now) }
    ensures { IfOk result (λ text. text.items ≡ report_bytes (report_of report.now)) }
{
    let mut out = String::new(alloc);
    push_front(&mut out, report)?;
    push_items(&mut out, &report.entries, &report.marks)?;
    push_held(&mut out, &report.held)?;
    push_last(&mut out, report)?;
    Ok(out.into_bytes())
}

// Writes the lines above the entries at the end.
fn push_front(out: &mut String, report: &Report) -> Result<(), AllocError>
    ensures { OnOk result (string_bytes out.new ≡ string_bytes out.old ++ ended (front_lines (report_of report.now))) }
{
    writeln!(out, "respct-report 1")?;
    push_life(out, report.resumed)?;
    writeln!(out, "began {}", report.began)
}

// Writes the line of how the life began at the end.
fn push_life(out: &mut String, resumed: bool) -> Result<(), AllocError>
    ensures { OnOk result (string_bytes out.new ≡ string_bytes out.old ++ (life_line resumed ++ 10 ∷ [])) }
{
    if resumed {
        writeln!(out, "life resume")
    } else {
        writeln!(out, "life start")
    }
}

// Writes the lines below the held rooms at the end.
fn push_last(out: &mut String, report: &Report) -> Result<(), AllocError>
    ensures { OnOk result (string_bytes out.new ≡ string_bytes out.old ++ ended (last_lines (report_of report.now))) }
{
    writeln!(out, "flushed {}", report.flushed)?;
    match report.outcome {
        Outcome::Finished => writeln!(out, "end finished"),
        Outcome::Stalled => writeln!(out, "end stalled"),
        Outcome::Cut => writeln!(out, "end cut"),
        Outcome::Starved => writeln!(out, "end starved"),
    }
}

// Writes the lines of held rooms at the end.
fn push_held(out: &mut String, held: &[u32]) -> Result<(), AllocError>
    ensures { OnOk result (string_bytes out.new ≡ string_bytes out.old ++ ended (map held_line held.now)) }
{
    for room in held {
        writeln!(out, "held {room}")?;
    }
    Ok(())
}

// Writes the entries and the marks at the end, each mark behind the entries that it saves.
fn push_items(out: &mut String, entries: &[Entry], marks: &[Mark]) -> Result<(), AllocError>
    requires { AreRising 0 (lengths marks.now) (length entries.now) }
    ensures { OnOk result (string_bytes out.new ≡ string_bytes out.old ++ ended (item_lines 0 entries.now marks.now)) }
{
    let mut above: u64 = 0;
    let mut rest = entries;
    for mark in marks {
        let (saved, others) = rest.split_at((mark.length - above) as usize);
        push_entries(out, saved)?;
        writeln!(out, "saved {}", mark.epoch)?;
        above = mark.length;
        rest = others;
    }
    push_entries(out, rest)
}

// Writes the lines of entries at the end.
fn push_entries(out: &mut String, entries: &[Entry]) -> Result<(), AllocError>
    ensures { OnOk result (string_bytes out.new ≡ string_bytes out.old ++ ended (map entry_line entries.now)) }
{
    for entry in entries {
        push_entry(out, *entry)?;
    }
    Ok(())
}

// Writes the line of an entry at the end.
fn push_entry(out: &mut String, entry: Entry) -> Result<(), AllocError>
    ensures { OnOk result (string_bytes out.new ≡ string_bytes out.old ++ (entry_line entry ++ 10 ∷ [])) }
{
    write!(out, "entry {} {} ", entry.thread, entry.index)?;
    push_command_words(out, entry.command)?;
    write!(out, " = ")?;
    push_reply(out, entry.reply)?;
    writeln!(out)
}

// Writes a reply at the end.
fn push_reply(out: &mut String, reply: Reply) -> Result<(), AllocError>
    ensures { OnOk result (string_bytes out.new ≡ string_bytes out.old ++ reply_text reply) }
{
    match reply {
        Reply::New => write!(out, "new"),
        Reply::Old(value) => write!(out, "old {value}"),
        Reply::Full => write!(out, "full"),
        Reply::Found(value) => write!(out, "is {value}"),
        Reply::Gone(value) => write!(out, "was {value}"),
        Reply::Absent => write!(out, "none"),
        Reply::Done => write!(out, "done"),
        Reply::Empty => write!(out, "empty"),
    }
}
