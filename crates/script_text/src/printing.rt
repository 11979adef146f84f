//! The text of a script, line by line.
//! It is the text that the reader accepts, where the script is within its limits.

ghost use Rattle.std.specs.Prelude.{◌≡◌, ◌++◌, [], ◌∷◌, ◌+◌, ◌<◌, map, codes, OnOk, IfOk};
ghost use Rattle.std.specs.String.{string_bytes};
ghost use Rattle.script_text.specs.Program.{turns_of, listed, keeping_of, these, program_of};
ghost use Rattle.script_text.specs.Text.{spaced, ended, settings_lines, turns_words, keep_words, item_text, command_line, section_lines, sections_lines, text_of};

use crate::mode::Mode;
use crate::script::Script;
use seq_object::{Command, Settings};
use std::alloc::{AllocError, Global};
use store_order::{Choice, Kept};

/// The text of a script, each line with its line feed.
///
/// A script that is not within its limits is written too, and no reader accepts what was written.
pub fn print(alloc: Global, script: &Script) -> Result<Vec<u8>, AllocError>
    ensures { IfOk result (λ text. text.items ≡ text_of (program_of script.now)) }
{
    let mut out = String::new(alloc);
    writeln!(out, "respct 1")?;
    push_settings(&mut out, &script.settings)?;
    push_turns(&mut out, &script.mode)?;
    push_keep(&mut out, &script.keep)?;
    push_sections(&mut out, &script.threads)?;
    push_end(&mut out)?;
    Ok(out.into_bytes())
}

// Writes the last line at the end.
fn push_end(out: &mut String) -> Result<(), AllocError>
    ensures { OnOk result (string_bytes out.new ≡ string_bytes out.old ++ codes "end\n") }
{
    writeln!(out, "end")
}

// Writes the lines of the settings at the end.
fn push_settings(out: &mut String, settings: &Settings) -> Result<(), AllocError>
    ensures { OnOk result (string_bytes out.new ≡ string_bytes out.old ++ ended (settings_lines settings.now)) }
{
    writeln!(out, "threads {}", settings.threads)?;
    writeln!(out, "shards {}", settings.shards)?;
    writeln!(out, "lines {}", settings.lines)?;
    writeln!(out, "every {}", settings.every)
}

// Writes the line of the turns at the end.
fn push_turns(out: &mut String, mode: &Mode) -> Result<(), AllocError>
    ensures { OnOk result (string_bytes out.new ≡ string_bytes out.old ++ (spaced (turns_words (turns_of mode.now)) ++ 10 ∷ [])) }
{
    match mode {
        Mode::RoundRobin(count) => writeln!(out, "turns rr {count}"),
        Mode::Seeded(seed, count) => writeln!(out, "turns seed {seed} {count}"),
        Mode::Listed(threads) => push_turn_list(out, threads.as_slice()),
        Mode::Live(count) => writeln!(out, "live {count}"),
    }
}

// Writes a list of turns at the end.
fn push_turn_list(out: &mut String, threads: &[u32]) -> Result<(), AllocError>
    ensures { OnOk result (string_bytes out.new ≡ string_bytes out.old ++ (spaced (turns_words (listed threads.now)) ++ 10 ∷ [])) }
{
    write!(out, "turns list")?;
    for thread in threads {
        write!(out, " {thread}")?;
    }
    writeln!(out)
}

// Writes the line of what a cut keeps at the end.
fn push_keep(out: &mut String, keep: &Choice) -> Result<(), AllocError>
    ensures { OnOk result (string_bytes out.new ≡ string_bytes out.old ++ (spaced (keep_words (keeping_of keep.now)) ++ 10 ∷ [])) }
{
    match keep {
        Choice::Nothing => writeln!(out, "keep none"),
        Choice::All => writeln!(out, "keep all"),
        Choice::Seed(seed) => writeln!(out, "keep seed {seed}"),
        Choice::List(items) => push_item_list(out, items.as_slice()),
    }
}

// Writes a keep list at the end.
fn push_item_list(out: &mut String, items: &[Kept]) -> Result<(), AllocError>
    ensures { OnOk result (string_bytes out.new ≡ string_bytes out.old ++ (spaced (keep_words (these items.now)) ++ 10 ∷ [])) }
{
    write!(out, "keep list")?;
    for item in items {
        push_item(out, *item)?;
    }
    writeln!(out)
}

// Writes a space and an item of a keep list at the end.
fn push_item(out: &mut String, item: Kept) -> Result<(), AllocError>
    ensures { OnOk result (string_bytes out.new ≡ string_bytes out.old ++ 32 ∷ item_text item) }
{
    write!(out, " {}:{}", item.line, item.count)
}

// Writes the sections at the end.
fn push_sections(out: &mut String, threads: &[Vec<Command>]) -> Result<(), AllocError>
    ensures { OnOk result (string_bytes out.new ≡ string_bytes out.old ++ ended (sections_lines 0 (map (λ v. v.items) threads.now))) }
{
    for (thread, commands) in threads.iter().enumerate() {
        push_section(out, thread, commands.as_slice())?;
    }
    Ok(())
}

// Writes the section of a thread at the end.
fn push_section(out: &mut String, thread: usize, commands: &[Command]) -> Result<(), AllocError>
    ensures { OnOk result (string_bytes out.new ≡ string_bytes out.old ++ ended (section_lines thread commands.now)) }
{
    writeln!(out, "thread {thread}")?;
    for command in commands {
        push_command(out, *command)?;
    }
    Ok(())
}

// Writes the line of a command at the end.
fn push_command(out: &mut String, command: Command) -> Result<(), AllocError>
    ensures { OnOk result (string_bytes out.new ≡ string_bytes out.old ++ (command_line command ++ 10 ∷ [])) }
{
    push_command_words(out, command)?;
    writeln!(out)
}

/// Writes the words of a command at the end.
pub fn push_command_words(out: &mut String, command: Command) -> Result<(), AllocError>
    ensures { OnOk result (string_bytes out.new ≡ string_bytes out.old ++ command_line command) }
{
    match command {
        Command::Put(key, value) => write!(out, "put {key} {value}"),
        Command::Get(key) => write!(out, "get {key}"),
        Command::Del(key) => write!(out, "del {key}"),
        Command::Enq(value) => write!(out, "enq {value}"),
        Command::Deq => write!(out, "deq"),
        Command::Take => write!(out, "take"),
    }
}
