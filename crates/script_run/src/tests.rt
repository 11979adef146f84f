//! Replays of whole scripts, with reports that were worked out by hand.

ghost use Rattle.std.specs.Prelude.{IfOk};
ghost use Rattle.script_text.specs.Program.{program_of, turns_of};
ghost use Rattle.script_text.specs.ReportText.{report_of, AreMarksRising};
ghost use Rattle.script_text.specs.Schedules.{AreScheduled};
ghost use Rattle.script_text.specs.Text.{HasText};

use crate::replay_job;
use formatting::format;
use image_check::{Recovered, check_image};
use life_model::{Life, Outcome};
use power_cut::{cut, image_bytes, read_image};
use script_text::{Mode, Report, Script, read_script, report_text};
use seq_object::{Pair, Settings};
use std::alloc::{AllocError, Global};
use std::process::Abort;
use std::test::Fail;
use store_order::Choice;

/// The script of a text, of which threads do not run by themselves.
fn script_in(alloc: Global, text: &str) -> Result<Script, AllocError>
    ensures has_text { IfOk result (λ script. HasText (program_of script)) }
    ensures replayed { IfOk result (λ script. AreScheduled (turns_of script.mode)) }
{
    match read_script(alloc, text.as_bytes()) {
        Ok(script) if !matches!(script.mode, Mode::Live(_)) => Ok(script),
        _ => Err(AllocError),
    }
}

/// The report of a start of a script over formatted memory.
fn replayed(alloc: Global, text: &str) -> Result<Report, AllocError>
    ensures rising { IfOk result (λ report. AreMarksRising (report_of report)) }
{
    let script = script_in(alloc, text)?;
    let mut memory = format(alloc, &script.settings)?;
    replay_job(alloc, &script, Life::Start, &mut memory)
}

/// The same as a text.
fn report_in(alloc: Global, text: &str) -> Result<Vec<u8>, AllocError> {
    let report = replayed(alloc, text)?;
    report_text(alloc, &report)
}

/// One thread's script over one shard of 16 lines, with so many turns going round.
fn one_thread(alloc: Global, turns: u32, commands: &str) -> Result<String, AllocError> {
    format!(in alloc;
        "respct 1\nthreads 1\nshards 1\nlines 16\nevery 1\nturns rr {turns}\nkeep none\nthread 0\n{commands}end\n"
    )
}

#[test]
fn one_put_cut_at_its_turns(rt: HostRuntime) -> Result<(), Fail> {
    for (turns, commands, lines) in [
        (0, "", "flushed 0\nend finished\n"),
        (
            49,
            "put 5 7\n",
            "entry 0 0 put 5 7 = new\nsaved 2\nflushed 5\nend finished\n",
        ),
        (
            48,
            "put 5 7\n",
            "entry 0 0 put 5 7 = new\nflushed 5\nend cut\n",
        ),
        (
            47,
            "put 5 7\n",
            "entry 0 0 put 5 7 = new\nheld 3\nflushed 5\nend cut\n",
        ),
        (
            45,
            "put 5 7\n",
            "entry 0 0 put 5 7 = new\nheld 3\nflushed 4\nend cut\n",
        ),
        (
            44,
            "put 5 7\n",
            "entry 0 0 put 5 7 = new\nheld 3\nflushed 4\nend cut\n",
        ),
        (
            21,
            "put 5 7\n",
            "entry 0 0 put 5 7 = new\nheld 0\nflushed 0\nend cut\n",
        ),
        (20, "put 5 7\n", "held 0\nflushed 0\nend cut\n"),
        (6, "put 5 7\n", "held 0\nflushed 0\nend cut\n"),
        (1, "put 5 7\n", "flushed 0\nend cut\n"),
    ] {
        let text = one_thread(rt.alloc(), turns, commands)?;
        let report = report_in(rt.alloc(), &text)?;
        let expected = format!(in rt.alloc(); "respct-report 1\nlife start\nbegan 1\n{lines}")?;
        assert!(rt; report == expected.into_bytes(), "after {turns} turns");
    }
    Ok(())
}

const SETTINGS: Settings = Settings {
    threads: 1,
    shards: 1,
    lines: 16,
    every: 1,
};

/// What the image of a cut recovers to, of a life whose one thread puts a pair and has had so many turns. The image is written and read again.
fn recovered(rt: &impl Abort, alloc: Global, turns: u32, keep: &Choice) -> Recovered {
    let text = one_thread(alloc, turns, "put 5 7\n").expect(rt, "memory");
    let script = script_in(alloc, &text).expect(rt, "a script");
    let mut memory = format(alloc, &script.settings).expect(rt, "memory");
    let _report = replay_job(alloc, &script, Life::Start, &mut memory).expect(rt, "memory");
    let left = cut(alloc, &memory, &SETTINGS, keep).expect(rt, "memory");
    let bytes = image_bytes(alloc, &left).expect(rt, "memory");
    let image = read_image(alloc, bytes.as_slice()).expect(rt, "an image");
    check_image(alloc, &image).expect(rt, "a lawful image")
}

/// Whether that is what was there before the put.
fn is_opening(found: &Recovered) -> bool {
    found.epoch == 1
        && found.positions.as_slice() == [0].as_slice()
        && found.pairs.is_empty()
        && found.items.is_empty()
}

/// Whether it is what is there behind it.
fn is_whole_put(found: &Recovered) -> bool {
    found.epoch == 2
        && found.positions.as_slice() == [1].as_slice()
        && found.pairs.as_slice() == [Pair { key: 5, value: 7 }].as_slice()
        && found.items.is_empty()
}

/// The next epoch is stored at turn 45, asked for at turn 46, and in memory behind turn 47. Before its store no choice keeps anything of the
/// put, behind its fence each keeps all of it, and between the two the super room's line decides.
#[test]
fn one_put_is_kept_whole_or_not_at_all(rt: HostRuntime) {
    for turns in 0..50 {
        let nothing = recovered(&rt, rt.alloc(), turns, &Choice::Nothing);
        assert!(rt;
            if turns < 47 {
                is_opening(&nothing)
            } else {
                is_whole_put(&nothing)
            },
            "nothing, after {turns} turns"
        );
        let all = recovered(&rt, rt.alloc(), turns, &Choice::All);
        assert!(rt;
            if turns < 45 {
                is_opening(&all)
            } else {
                is_whole_put(&all)
            },
            "all, after {turns} turns"
        );
        for seed in 0..4 {
            let drawn = recovered(&rt, rt.alloc(), turns, &Choice::Seed(seed));
            assert!(rt;
                is_opening(&drawn) && turns < 47 || is_whole_put(&drawn) && turns >= 45,
                "seed {seed}, after {turns} turns"
            );
        }
    }
}

/// Two threads that put the same key: the second waits twice for the room that the first holds.
const SAME_KEY: &str =
    "respct 1\nthreads 2\nshards 1\nlines 16\nevery 1\nturns list 0 0 1 1 1 0 0 0 0 0 0 0 0 0 0 0 0 0 0 0 0 0 0 0 0 1 1 1 1\nkeep none\nthread 0\nput 1 10\nthread 1\nput 1 20\nend\n";

/// Two threads with three commands each, two in an epoch.
const SIX_GETS: &str =
    "respct 1\nthreads 2\nshards 1\nlines 16\nevery 2\nturns rr 400\nkeep none\nthread 0\nget 1\nget 1\nget 1\nthread 1\nget 1\nget 1\nget 1\nend\n";

/// A thread that takes an item which another brings.
const TAKE: &str =
    "respct 1\nthreads 2\nshards 1\nlines 16\nevery 1\nturns rr 400\nkeep none\nthread 0\ntake\nthread 1\nenq 9\nend\n";

/// Two threads whose turns are drawn. The first five words of SplitMix64 by the seed 1234567 are published as 6457827717110365317,
/// 3203168211198807973, 9817491932198370423, 4593380528125082431 and 16408922859458223821. All are odd, so thread 1 has each turn: it
/// leaves, locks its room, and makes three stores.
const DRAWN: &str =
    "respct 1\nthreads 2\nshards 1\nlines 16\nevery 1\nturns seed 1234567 5\nkeep none\nthread 0\nput 1 10\nthread 1\nput 1 20\nend\n";

/// Two threads that wait for an item.
const TWO_TAKES: &str =
    "respct 1\nthreads 2\nshards 1\nlines 16\nevery 1\nturns rr 400\nkeep none\nthread 0\ntake\nthread 1\ntake\nend\n";

#[test]
fn two_threads(rt: HostRuntime) -> Result<(), Fail> {
    for (text, lines) in [
        (
            SAME_KEY,
            "entry 0 0 put 1 10 = new\nentry 1 0 put 1 20 = old 10\nflushed 0\nend cut\n",
        ),
        (
            SIX_GETS,
            "entry 0 0 get 1 = none\nentry 1 0 get 1 = none\nentry 0 1 get 1 = none\nentry 1 1 get 1 = none\nsaved 2\nentry 1 2 get 1 = none\nentry 0 2 get 1 = none\nsaved 3\nflushed 6\nend finished\n",
        ),
        (
            TAKE,
            "entry 1 0 enq 9 = done\nsaved 2\nentry 0 0 take = is 9\nsaved 3\nflushed 11\nend finished\n",
        ),
        (TWO_TAKES, "saved 2\nflushed 3\nend stalled\n"),
        (DRAWN, "held 0\nflushed 0\nend cut\n"),
    ] {
        let report = report_in(rt.alloc(), text)?;
        let expected = format!(in rt.alloc(); "respct-report 1\nlife start\nbegan 1\n{lines}")?;
        assert!(rt; report == expected.into_bytes());
    }
    Ok(())
}

/// The script of sixteen threads over eight shards, each of which puts the pair of its number.
fn sixteen_threads(alloc: Global) -> Result<String, AllocError> {
    let mut text = format!(in alloc;
        "respct 1\nthreads 16\nshards 8\nlines 16\nevery 1\nturns rr 100000\nkeep none\n"
    )?;
    for thread in 0..16 {
        writeln!(&mut text, "thread {thread}")?;
        writeln!(&mut text, "put {thread} {thread}")?;
    }
    writeln!(&mut text, "end")?;
    Ok(text)
}

/// In each shard's room the header, two nodes and two bucket heads are written back: 40 lines; and the rooms of the threads, and the epoch.
#[test]
fn sixteen_threads_in_one_epoch(rt: HostRuntime) -> Result<(), Fail> {
    let text = sixteen_threads(rt.alloc())?;
    let report = replayed(rt.alloc(), &text)?;
    assert_eq!(rt; report.entries.len(), 16);
    assert_eq!(rt; report.marks.len(), 1);
    assert_eq!(rt; report.held.len(), 0);
    assert_eq!(rt; report.flushed, 57);
    assert!(rt; report.outcome == Outcome::Finished);
    Ok(())
}
