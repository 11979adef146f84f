//! Scripts and summaries of drills. The words of SplitMix64 were computed apart, by a few lines of another language.

ghost use Rattle.std.specs.Prelude.{◌<◌, ◌^◌, sum, IfOk};

use crate::{Summary, drill_script, run_drill, summary_of, summary_text};
use image_check::Recovered;
use life_model::Outcome;
use line_memory::Memory;
use script_text::{Mode, Script};
use seq_object::{Command, Pair};
use std::alloc::{AllocError, Global};
use std::test::Fail;
use store_order::Choice;

/// Commands of drill 1 by thread and index. A thread's command of an index has the words with the numbers 400 times the thread and twice the
/// index, and the next. From seed 1 SplitMix64 draws:
///
/// | Words | First, and its remainder by 8 | Second, of which the last two digits count |
/// |---|---|---|
/// | 0, 1 | 10451216379200822465: 1 | 13757245211066428519 |
/// | 2, 3 | 17911839290282890590: 6 | 8196980753821780235 |
/// | 6, 7 | 16184226688143867045: 5 | 9648886400068060533 |
/// | 400, 401 | 15724029277306174714: 2 | 5096993099337736299 |
/// | 402, 403 | 2427585051654663084: 4 | 14046981085245877004 |
/// | 796, 797 | 11027698820691187183: 7 | 4338718793216123755 |
/// | 798, 799 | 14183272860350540571: 3 | 16802007720043395490 |
/// | 1598, 1599 | 12428344248974675026: 2 | 5370968759455382824 |
const COMMANDS: [(usize, usize, Command); 8] = [
    (0, 0, Command::Put(19, 0)),
    (0, 1, Command::Enq(4)),
    (0, 3, Command::Del(33)),
    (1, 0, Command::Put(99, 1)),
    (1, 1, Command::Get(4)),
    (1, 198, Command::Deq),
    (1, 199, Command::Get(90)),
    (3, 199, Command::Put(24, 799)),
];

/// A thread's command of an index, where there is one.
fn command_at(script: &Script, thread: usize, index: usize) -> Option<Command> {
    match script.threads.get(thread) {
        Some(commands) => commands.get(index).copied(),
        None => None,
    }
}

#[test]
fn the_commands_of_drill_1(rt: HostRuntime) -> Result<(), Fail> {
    let script = drill_script(rt.alloc(), 1, 3)?;
    assert_eq!(rt; script.threads.len(), 4);
    for (thread, index, command) in COMMANDS {
        assert!(rt;
            command_at(&script, thread, index) == Some(command),
            "thread {thread}, index {index}"
        );
    }
    for thread in 0..4 {
        assert!(rt; command_at(&script, thread, 200).is_none());
    }
    Ok(())
}

#[test]
fn a_life_has_its_own_seed(rt: HostRuntime) -> Result<(), Fail> {
    let script = drill_script(rt.alloc(), 1, 3)?;
    assert!(rt;
        matches!(script.mode, Mode::Seeded(4, 3000)) && matches!(script.keep, Choice::Seed(4))
    );
    Ok(())
}

#[test]
fn seeds_go_on_from_0(rt: HostRuntime) -> Result<(), Fail> {
    let script = drill_script(rt.alloc(), u64::MAX, 7)?;
    assert!(rt;
        matches!(script.mode, Mode::Seeded(6, 3000)) && matches!(script.keep, Choice::Seed(6))
    );
    Ok(())
}

#[test]
fn the_last_life_has_turns_enough(rt: HostRuntime) -> Result<(), Fail> {
    let script = drill_script(rt.alloc(), 1, 8)?;
    assert!(rt;
        matches!(script.mode, Mode::RoundRobin(1000000)) && matches!(script.keep, Choice::Nothing)
    );
    Ok(())
}

/// A state of two threads, with values whose sum is above 2^64.
fn some_state(alloc: Global) -> Result<Recovered, AllocError>
    ensures { IfOk result (λ found. sum found.positions.items < 2 ^ 64) }
{
    let high = Pair {
        key: 2,
        value: u64::MAX,
    };
    let low = Pair { key: 5, value: 7 };
    Ok(Recovered {
        epoch: 12,
        positions: vec![in alloc; 200, 150]?,
        pairs: vec![in alloc; high, low]?,
        items: vec![in alloc; 30, 4, 30]?,
    })
}

#[test]
fn a_summary_counts_what_is_left(rt: HostRuntime) -> Result<(), Fail> {
    let found = some_state(rt.alloc())?;
    let summary = summary_of(3, Outcome::Finished, &found);
    let wanted = Summary {
        number: 3,
        kept: 350,
        epoch: 12,
        pairs: 2,
        items: 3,
        values: 70,
        outcome: Outcome::Finished,
    };
    assert!(rt; summary == wanted);
    Ok(())
}

#[test]
fn the_text_of_a_summary(rt: HostRuntime) -> Result<(), Fail> {
    let summary = Summary {
        number: 18446744073709551615,
        kept: 800,
        epoch: 131,
        pairs: 61,
        items: 9,
        values: 0,
        outcome: Outcome::Cut,
    };
    let text = summary_text(rt.alloc(), &summary)?;
    let wanted =
        "drill 18446744073709551615\nlives 9\nkept 800\nepoch 131\npairs 61\nitems 9\nsum 0\nend cut\n";
    assert_eq!(rt; text.as_slice(), wanted.as_bytes());
    Ok(())
}

/// The text of the summary of a drill.
fn drilled(alloc: Global, n: u64) -> Result<Vec<u8>, AllocError> {
    let mut memory = Memory::empty(alloc);
    let summary = run_drill(alloc, n, &mut memory)?;
    summary_text(alloc, &summary)
}

#[test]
fn drill_1_keeps_all_commands(rt: HostRuntime) -> Result<(), Fail> {
    let text = drilled(rt.alloc(), 1)?;
    assert!(rt; text.starts_with(b"drill 1\nlives 9\nkept 800\nepoch "));
    assert!(rt; text.ends_with(b"\nend finished\n"));
    Ok(())
}

#[test]
fn a_drill_goes_the_same_way_again(rt: HostRuntime) -> Result<(), Fail> {
    let text = drilled(rt.alloc(), 1)?;
    let again = drilled(rt.alloc(), 1)?;
    assert_eq!(rt; text.as_slice(), again.as_slice());
    Ok(())
}
