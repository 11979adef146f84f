//! The scripts of a drill. Their commands are drawn once through all threads, by the drill's number.

ghost use Rattle.std.specs.Prelude.{◌≡◌, ℕ, ◌+◌, ◌*◌, ◌<◌, ◌≤◌, IfOk, map};
ghost use Rattle.seq_object.specs.History.{counted_from};
ghost use Rattle.store_order.specs.Choice.{state_after};
ghost use Rattle.script_text.specs.Program.{turns_of, program_of};
ghost use Rattle.script_text.specs.Schedules.{AreScheduled};
ghost use Rattle.script_text.specs.Text.{HasText};
ghost use Rattle.drill.specs.Scripts.{drill_settings, command_of, drawn_place, drill_command, thread_commands, drill_commands, life_seed, drill_turns, drill_choice, drill_program};

use rand_core::SeedableRng;
use rand_core::utils::NextWord;
use rand_xoshiro::SplitMix64;
use script_text::{Mode, Script};
use seq_object::{Command, Settings};
use std::alloc::{AllocError, Global};
use store_order::Choice;

/// How many threads a drill has.
const THREADS: u32 = 4;
/// How many commands each of them has.
const COMMANDS: u32 = 200;
/// The number of the last life, which has turns enough to finish.
pub const LAST_LIFE: u32 = 8;

/// The script of a life of a drill: `n` is the drill's number, and `life` the life's, from 0 to 8. Want of memory is the one refusal.
pub fn drill_script(alloc: Global, n: u64, life: u32) -> Result<Script, AllocError>
    requires { life ≤ 8 }
    // it is the stated one
    ensures program { IfOk result (λ script. program_of script ≡ drill_program n life) }
    // its cut keeps what is stated
    ensures keep { IfOk result (λ script. script.keep ≡ drill_choice n life) }
    // it is within the limits of scripts, and its turns are those of a schedule
    ensures text { IfOk result (λ script. HasText (program_of script)) }
    ensures scheduled { IfOk result (λ script. AreScheduled (turns_of script.mode)) }
{
    let threads = drawn_commands(alloc, n)?;
    Ok(Script {
        settings: settings(),
        mode: turns_in(n, life),
        keep: keep_behind(n, life),
        threads,
    })
}

/// The settings of a drill.
pub fn settings() -> Settings
    ensures { result ≡ drill_settings }
{
    Settings {
        threads: THREADS,
        shards: 3,
        lines: 256,
        every: 8,
    }
}

/// The seed of a life.
fn seed_of(n: u64, life: u32) -> u64
    ensures { result ≡ life_seed n life }
{
    n.wrapping_add(u64::from(life))
}

/// The turns of a life.
fn turns_in(n: u64, life: u32) -> Mode
    requires { life ≤ 8 }
    ensures { turns_of result ≡ drill_turns n life }
{
    if life < LAST_LIFE {
        Mode::Seeded(seed_of(n, life), 3_000)
    } else {
        Mode::RoundRobin(1_000_000)
    }
}

/// What the cut behind a life keeps.
pub fn keep_behind(n: u64, life: u32) -> Choice
    requires { life ≤ 8 }
    ensures { result ≡ drill_choice n life }
{
    if life < LAST_LIFE {
        Choice::Seed(seed_of(n, life))
    } else {
        Choice::Nothing
    }
}

/// The commands of all threads.
fn drawn_commands(alloc: Global, n: u64) -> Result<Vec<Vec<Command>>, AllocError>
    ensures { IfOk result (λ threads. map (λ commands. commands.items) threads.items ≡ drill_commands n) }
{
    let mut words = SplitMix64::seed_from_u64(n);
    let mut threads = Vec::with_capacity(alloc, THREADS as usize)?;
    for thread in 0..THREADS {
        threads.push(drawn_thread(alloc, n, thread, &mut words)?)?;
    }
    Ok(threads)
}

/// The commands of one thread, where the generator has drawn those of the threads before it, and then has drawn these too.
fn drawn_thread(
    alloc: Global,
    n: u64,
    thread: u32,
    words: &mut SplitMix64,
) -> Result<Vec<Command>, AllocError>
    requires thread { thread < 4 }
    requires drawn { words.old ≡ state_after (2 * drawn_place thread 0) n }
    ensures commands { IfOk result (λ commands. commands.items ≡ thread_commands n thread) }
    ensures drawn { IfOk result (λ _. words.new ≡ state_after (2 * drawn_place (thread + 1) 0) n) }
{
    let mut commands = Vec::with_capacity(alloc, COMMANDS as usize)?;
    for index in 0..COMMANDS {
        commands.push(drawn_command(n, thread, index, words))?;
    }
    Ok(commands)
}

/// The next command that the generator draws, which is the thread's command of this index.
fn drawn_command(n: u64, thread: u32, index: u32, words: &mut SplitMix64) -> Command
    requires thread { thread < 4 }
    requires index { index < 200 }
    requires drawn { words.old ≡ state_after (2 * drawn_place thread index) n }
    ensures command { result ≡ drill_command n thread index }
    ensures drawn { words.new ≡ state_after (2 * drawn_place thread (index + 1)) n }
{
    let kind = words.next_word() % 8;
    let key = words.next_word() % 100;
    let value = u64::from(THREADS * index + thread);
    command(kind, key, value)
}

/// The command of a kind.
fn command(kind: u64, key: u64, value: u64) -> Command
    requires { kind < 8 }
    ensures { result ≡ command_of kind key value }
{
    match kind {
        0..=2 => Command::Put(key, value),
        3 | 4 => Command::Get(key),
        5 => Command::Del(key),
        6 => Command::Enq(value),
        _ => Command::Deq,
    }
}
