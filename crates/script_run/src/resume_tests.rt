//! Resumes over the images of cuts, with reports that were worked out by hand.

ghost use Rattle.std.specs.Prelude.{IfSome};
ghost use Rattle.script_text.specs.Program.{program_of, turns_of};
ghost use Rattle.script_text.specs.Text.{HasText};
ghost use Rattle.script_run.specs.Jobs.{IsReady};
ghost use Rattle.script_text.specs.Schedules.{AreScheduled};
ghost use Rattle.power_cut.specs.Image.{IsWhole};
ghost use Rattle.life_model.specs.declared.life.Life.TheVariants.{Resume};

use crate::replay_job;
use formatting::format;
use image_check::{Recovered, check_image};
use life_model::{Life, Mark, Outcome};
use line_memory::Memory;
use power_cut::{Image, cut, image_bytes, image_memory, read_image};
use script_text::{Mode, Report, Script, read_script};
use seq_object::{Command, Entry, Pair, Reply, Settings};
use std::alloc::Global;
use std::process::Abort;
use store_order::Choice;

const SETTINGS: Settings = Settings {
    threads: 1,
    shards: 1,
    lines: 16,
    every: 1,
};

/// The script of one thread that puts a pair, over one shard of 16 lines, with so many turns going round.
fn one_put(rt: &impl Abort, alloc: Global, turns: u32) -> Script
    ensures has_text { HasText (program_of result) }
    ensures replayed { AreScheduled (turns_of result.mode) }
{
    let text = format!(in alloc;
        "respct 1\nthreads 1\nshards 1\nlines 16\nevery 1\nturns rr {turns}\nkeep none\nthread 0\nput 5 7\nend\n"
    ).expect(rt, "memory");
    let script = read_script(alloc, text.as_bytes()).expect(rt, "a script");
    assert!(rt; !matches!(script.mode, Mode::Live(_)));
    script
}

/// What a life left: its report, and the image of a cut behind it.
#[derive(Drop)]
struct Left {
    report: Report,
    image: Image,
}

/// The image of a cut, written and read again.
fn cut_image(rt: &impl Abort, alloc: Global, memory: &Memory, keep: &Choice) -> Image
    ensures { IsWhole result }
{
    let left = cut(alloc, memory, &SETTINGS, keep).expect(rt, "memory");
    let bytes = image_bytes(alloc, &left).expect(rt, "memory");
    read_image(alloc, bytes.as_slice()).expect(rt, "an image")
}

/// What a start of the script leaves.
fn started(rt: &impl Abort, alloc: Global, turns: u32, keep: &Choice) -> Left
    ensures { IsWhole result.image }
{
    let script = one_put(rt, alloc, turns);
    let mut memory = format(alloc, &script.settings).expect(rt, "memory");
    let report = replay_job(alloc, &script, Life::Start, &mut memory).expect(rt, "memory");
    Left {
        report,
        image: cut_image(rt, alloc, &memory, keep),
    }
}

/// The memory of an image from which a script of one thread may be resumed, and none where it may not.
fn ready(alloc: Global, script: &Script, image: Image) -> Option<Memory>
    requires { IsWhole image }
    ensures { IfSome result (λ memory. IsReady Resume script.now.settings (program_of script.now).threads memory) }
{
    let found = check_image(alloc, &image).ok()?;
    let place = *found.positions.first()?;
    let commands = script.threads.first()?.len() as u64;
    if image.sizes() != script.settings.sizes() {
        return None;
    }
    if script.settings.threads != 1 || found.epoch >= 4278190080 || place > commands {
        return None;
    }
    image_memory(alloc, image).ok()
}

/// What a resume of the script from an image leaves.
fn resumed(rt: &impl Abort, alloc: Global, image: Image, turns: u32, keep: &Choice) -> Left
    requires { IsWhole image }
    ensures { IsWhole result.image }
{
    let script = one_put(rt, alloc, turns);
    let mut memory = ready(alloc, &script, image).expect(rt, "a memory that is ready");
    let report = replay_job(alloc, &script, Life::Resume, &mut memory).expect(rt, "memory");
    Left {
        report,
        image: cut_image(rt, alloc, &memory, keep),
    }
}

/// The image that is left where a start was cut behind 44 turns and its recovery behind two, and all pending stores were kept.
fn cut_twice(rt: &impl Abort, alloc: Global) -> Left
    ensures { IsWhole result.image }
{
    let Left { report: _, image } = started(rt, alloc, 44, &Choice::All);
    resumed(rt, alloc, image, 2, &Choice::All)
}

/// Whether a report is of a resume from an image of epoch 1, with these marks, no held room, and so many write-backs.
fn tells(report: &Report, marks: &[Mark], flushed: u64, outcome: Outcome) -> bool {
    report.resumed
        && report.began == 1
        && report.marks.as_slice() == marks
        && report.held.is_empty()
        && report.flushed == flushed
        && report.outcome == outcome
}

/// Whether a report has the entry of the put and no other.
fn has_put(report: &Report) -> bool {
    let entry = Entry {
        thread: 0,
        index: 0,
        command: Command::Put(5, 7),
        reply: Reply::New,
    };
    report.entries.as_slice() == [entry].as_slice()
}

#[test]
fn a_recovery_is_cut(rt: HostRuntime) {
    let Left { report, image: _ } = cut_twice(&rt, rt.alloc());
    assert!(rt; report.entries.is_empty() && tells(&report, [].as_slice(), 0, Outcome::Cut));
}

#[test]
fn the_last_turn_ends_the_recovery(rt: HostRuntime) {
    let Left { report: _, image } = cut_twice(&rt, rt.alloc());
    let Left { report, image: _ } = resumed(&rt, rt.alloc(), image, 21, &Choice::All);
    let recovery = Mark {
        epoch: 2,
        length: 0,
    };
    assert!(rt;
        report.entries.is_empty() && tells(&report, [recovery].as_slice(), 5, Outcome::Cut)
    );
}

#[test]
fn a_resume_goes_on_to_its_end(rt: HostRuntime) {
    let Left { report: _, image } = cut_twice(&rt, rt.alloc());
    let Left { report, image: _ } = resumed(&rt, rt.alloc(), image, 70, &Choice::All);
    let recovery = Mark {
        epoch: 2,
        length: 0,
    };
    let closing = Mark {
        epoch: 3,
        length: 1,
    };
    assert!(rt;
        has_put(&report)
            && tells(
                &report,
                [recovery, closing].as_slice(),
                10,
                Outcome::Finished
            )
    );
}

/// Whether a start that was cut behind so many turns and resumed to its end leaves the whole put.
fn ends_whole(rt: &impl Abort, alloc: Global, turns: u32, keep: &Choice) -> bool {
    let Left { report: _, image } = started(rt, alloc, turns, keep);
    let Left { report, image } = resumed(rt, alloc, image, 100, &Choice::Nothing);
    let found = check_image(alloc, &image).expect(rt, "a lawful image");
    report.outcome == Outcome::Finished
        && found.positions.as_slice() == [1].as_slice()
        && found.pairs.as_slice() == [Pair { key: 5, value: 7 }].as_slice()
}

/// Before the put and within it, at each stage of the epoch write, and behind the end.
#[test]
fn the_put_is_whole_wherever_the_start_was_cut(rt: HostRuntime) {
    for turns in [0, 12, 21, 44, 45, 46, 47, 60] {
        assert!(rt;
            ends_whole(&rt, rt.alloc(), turns, &Choice::Nothing),
            "nothing, after {turns} turns"
        );
        assert!(rt;
            ends_whole(&rt, rt.alloc(), turns, &Choice::All),
            "all, after {turns} turns"
        );
    }
}
