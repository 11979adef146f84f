//! Runs of the whole program over objects in memory, with the answers that its pages state.

use crate::fitting::{Misfit, MisfitKind};
use crate::status::Status;
use crate::top::respct;
use byte_ports::{FileImages, Images, MemoryImages, MemorySink, MemorySource};
use line_memory::Memory;
use power_cut::ImageFault;
use script_text::ScriptFault;
use std::alloc::{AllocError, Global};
use std::test::Fail;
use std::{env, fs};
use store_order::may_be_left;

/// A script whose threads run by themselves.
const LIVE: &str =
    "respct 1\nthreads 2\nshards 1\nlines 16\nevery 1\nlive 384\nkeep none\nthread 0\nput 5 7\nget 5\nthread 1\nend\n";

/// Two threads that put the same key: the second waits twice for the room that the first holds.
const SAME_KEY: &str =
    "respct 1\nthreads 2\nshards 1\nlines 16\nevery 1\nturns list 0 0 1 1 1 0 0 0 0 0 0 0 0 0 0 0 0 0 0 0 0 0 0 0 0 1 1 1 1\nkeep none\nthread 0\nput 1 10\nthread 1\nput 1 20\nend\n";

/// Two threads with three commands each, two in an epoch.
const SIX_GETS: &str =
    "respct 1\nthreads 2\nshards 1\nlines 16\nevery 2\nturns rr 400\nkeep none\nthread 0\nget 1\nget 1\nget 1\nthread 1\nget 1\nget 1\nget 1\nend\n";

/// A thread that takes an item which another brings.
const TAKE: &str =
    "respct 1\nthreads 2\nshards 1\nlines 16\nevery 1\nturns rr 400\nkeep none\nthread 0\ntake\nthread 1\nenq 9\nend\n";

/// Two threads that wait for an item.
const TWO_TAKES: &str =
    "respct 1\nthreads 2\nshards 1\nlines 16\nevery 1\nturns rr 400\nkeep none\nthread 0\ntake\nthread 1\ntake\nend\n";

/// The script of one put.
pub(crate) const ONE_PUT: Script = Script {
    every: 1,
    turns: 49,
    keep: "none",
    commands: "put 5 7\n",
};

/// What differs between the scripts of one thread. Each has one thread, one shard and rooms of 16 lines.
#[derive(Clone, Copy)]
pub(crate) struct Script {
    pub every: u32,
    pub turns: u32,
    pub keep: &'static str,
    /// The commands, each with its line feed.
    pub commands: &'static str,
}

impl Script {
    pub fn text(self, alloc: Global) -> Result<Vec<u8>, AllocError> {
        let text = format!(in alloc;
            "respct 1\nthreads 1\nshards 1\nlines 16\nevery {}\nturns rr {}\nkeep {}\nthread 0\n{}end\n",
            self.every, self.turns, self.keep, self.commands
        )?;
        Ok(text.into_bytes())
    }
}

/// The lines of a report above those that differ.
const REPORT_HEAD: &str = "respct-report 1\nlife start\nbegan 1\n";

/// The words of a call, which stand between single spaces.
pub(crate) fn words_in(alloc: Global, words: &str) -> Result<Vec<String>, AllocError> {
    let mut list = Vec::new(alloc);
    for word in words.split_whitespace() {
        list.push(String::from_str(alloc, word)?)?;
    }
    Ok(list)
}

/// The name of an image where the words give none.
pub(crate) const DEFAULT_NAME: &str = "respct.image";

/// What a run answered and left.
#[derive(Drop)]
struct Left {
    status: Status,
    report: Vec<u8>,
    /// The bytes under the name that was asked for, and none where there is no such name.
    image: Vec<u8>,
}

/// The calls of the source, of the image store and of the sink that fail, each counted from 1.
#[derive(Clone, Copy)]
struct Fails {
    reads: &'static [u64],
    saves: &'static [u64],
    writes: &'static [u64],
}

/// No call fails.
const NO_FAILS: Fails = Fails {
    reads: &[],
    saves: &[],
    writes: &[],
};

/// The answer to these words over this text, where these calls fail.
fn answer(rt: HostRuntime, words: &str, text: Vec<u8>, fails: Fails) -> Result<Left, AllocError> {
    answer_with(rt, words, text, fails, DEFAULT_NAME)
}

/// The same, with the image that is under this name.
fn answer_with(
    rt: HostRuntime,
    words: &str,
    text: Vec<u8>,
    fails: Fails,
    name: &str,
) -> Result<Left, AllocError> {
    let words = words_in(rt.alloc(), words)?;
    let mut source = MemorySource::new(text, Vec::from_slice(rt.alloc(), fails.reads)?);
    let mut images = MemoryImages::new(rt.alloc(), Vec::from_slice(rt.alloc(), fails.saves)?);
    let mut sink = MemorySink::new(rt.alloc(), Vec::from_slice(rt.alloc(), fails.writes)?);
    let mut memory = Memory::empty(rt.alloc());
    let status = respct(
        &rt,
        &words,
        &mut source,
        &mut images,
        &mut sink,
        &mut memory,
    );
    Ok(Left {
        status,
        report: Vec::from_slice(rt.alloc(), sink.bytes())?,
        image: Vec::from_slice(rt.alloc(), images.get(name).unwrap_or(&[]))?,
    })
}

/// The answer to `start` over a script, where no call fails.
fn led(rt: HostRuntime, script: Script) -> Result<Left, AllocError> {
    answer(rt, "start", script.text(rt.alloc())?, NO_FAILS)
}

/// A whole report, by the lines that differ.
fn report(alloc: Global, lines: &str) -> Result<Vec<u8>, AllocError> {
    let mut text = Vec::from_slice(alloc, REPORT_HEAD.as_bytes())?;
    text.extend_from_slice(lines.as_bytes())?;
    Ok(text)
}

#[test]
fn lives_of_one_put(rt: HostRuntime) -> Result<(), Fail> {
    for (commands, turns, keep, status, lines) in [
        ("", 0, "none", Status::Finished, "flushed 0\nend finished\n"),
        (
            "put 5 7\n",
            49,
            "none",
            Status::Finished,
            "entry 0 0 put 5 7 = new\nsaved 2\nflushed 5\nend finished\n",
        ),
        (
            "put 18446744073709551615 1\n",
            49,
            "none",
            Status::Finished,
            "entry 0 0 put 18446744073709551615 1 = new\nsaved 2\nflushed 5\nend finished\n",
        ),
        (
            "put 5 7\n",
            44,
            "all",
            Status::Cut,
            "entry 0 0 put 5 7 = new\nheld 3\nflushed 4\nend cut\n",
        ),
        (
            "put 5 7\n",
            45,
            "none",
            Status::Cut,
            "entry 0 0 put 5 7 = new\nheld 3\nflushed 4\nend cut\n",
        ),
        (
            "put 5 7\n",
            45,
            "all",
            Status::Cut,
            "entry 0 0 put 5 7 = new\nheld 3\nflushed 4\nend cut\n",
        ),
        (
            "put 5 7\n",
            47,
            "none",
            Status::Cut,
            "entry 0 0 put 5 7 = new\nheld 3\nflushed 5\nend cut\n",
        ),
        (
            "put 5 7\n",
            6,
            "all",
            Status::Cut,
            "held 0\nflushed 0\nend cut\n",
        ),
    ] {
        let script = Script {
            every: 1,
            turns,
            keep,
            commands,
        };
        let left = led(rt, script)?;
        assert_eq!(rt; left.status, status, "after {turns} turns");
        assert!(rt;
            left.report == report(rt.alloc(), lines)?,
            "after {turns} turns"
        );
    }
    Ok(())
}

/// Scripts of one epoch or more, and their reports.
#[test]
fn lives_of_several_commands(rt: HostRuntime) -> Result<(), Fail> {
    for (every, turns, keep, commands, status, lines) in [
        (
            1,
            384,
            "none",
            "put 5 7\nget 5\n",
            Status::Finished,
            "entry 0 0 put 5 7 = new\nsaved 2\nentry 0 1 get 5 = is 7\nsaved 3\nflushed 7\nend finished\n",
        ),
        (
            2,
            85,
            "all",
            "put 5 7\nget 5\ndel 5\nput 6 8\n",
            Status::Cut,
            "entry 0 0 put 5 7 = new\nentry 0 1 get 5 = is 7\nsaved 2\nentry 0 2 del 5 = was 7\nentry 0 3 put 6 8 = new\nflushed 5\nend cut\n",
        ),
        (
            2,
            51,
            "all",
            "put 5 7\nget 5\ndel 5\nput 6 8\n",
            Status::Cut,
            "entry 0 0 put 5 7 = new\nentry 0 1 get 5 = is 7\nflushed 5\nend cut\n",
        ),
        (
            2,
            52,
            "all",
            "put 5 7\nget 5\ndel 5\nput 6 8\n",
            Status::Cut,
            "entry 0 0 put 5 7 = new\nentry 0 1 get 5 = is 7\nsaved 2\nflushed 5\nend cut\n",
        ),
        (
            16,
            1000,
            "none",
            "put 1 10\nput 2 20\nput 3 30\nput 4 40\nput 5 50\nput 6 60\nput 7 70\nput 8 80\nput 1 99\n",
            Status::Finished,
            "entry 0 0 put 1 10 = new\nentry 0 1 put 2 20 = new\nentry 0 2 put 3 30 = new\nentry 0 3 put 4 40 = new\nentry 0 4 put 5 50 = new\nentry 0 5 put 6 60 = new\nentry 0 6 put 7 70 = new\nentry 0 7 put 8 80 = full\nentry 0 8 put 1 99 = old 10\nsaved 2\nflushed 17\nend finished\n",
        ),
        (
            16,
            2000,
            "none",
            "enq 4\nenq 5\ndeq\ndeq\ndeq\nenq 6\nput 5 1\nput 13 2\nput 21 3\ndel 13\ndel 21\ndel 5\ndel 5\n",
            Status::Finished,
            "entry 0 0 enq 4 = done\nentry 0 1 enq 5 = done\nentry 0 2 deq = is 4\nentry 0 3 deq = is 5\nentry 0 4 deq = empty\nentry 0 5 enq 6 = done\nentry 0 6 put 5 1 = new\nentry 0 7 put 13 2 = new\nentry 0 8 put 21 3 = new\nentry 0 9 del 13 = was 2\nentry 0 10 del 21 = was 3\nentry 0 11 del 5 = was 1\nentry 0 12 del 5 = none\nsaved 2\nflushed 11\nend finished\n",
        ),
    ] {
        let script = Script {
            every,
            turns,
            keep,
            commands,
        };
        let left = led(rt, script)?;
        assert_eq!(rt; left.status, status, "after {turns} turns");
        assert!(rt;
            left.report == report(rt.alloc(), lines)?,
            "after {turns} turns"
        );
    }
    Ok(())
}

/// Scripts of two threads, in their stated interleavings.
#[test]
fn lives_of_two_threads(rt: HostRuntime) -> Result<(), Fail> {
    for (text, status, lines) in [
        (
            SAME_KEY,
            Status::Cut,
            "entry 0 0 put 1 10 = new\nentry 1 0 put 1 20 = old 10\nflushed 0\nend cut\n",
        ),
        (
            SIX_GETS,
            Status::Finished,
            "entry 0 0 get 1 = none\nentry 1 0 get 1 = none\nentry 0 1 get 1 = none\nentry 1 1 get 1 = none\nsaved 2\nentry 1 2 get 1 = none\nentry 0 2 get 1 = none\nsaved 3\nflushed 6\nend finished\n",
        ),
        (
            TAKE,
            Status::Finished,
            "entry 1 0 enq 9 = done\nsaved 2\nentry 0 0 take = is 9\nsaved 3\nflushed 11\nend finished\n",
        ),
        (
            TWO_TAKES,
            Status::Stalled,
            "saved 2\nflushed 3\nend stalled\n",
        ),
    ] {
        let text = Vec::from_slice(rt.alloc(), text.as_bytes())?;
        let left = answer(rt, "start", text, NO_FAILS)?;
        assert_eq!(rt; left.status, status);
        assert!(rt; left.report == report(rt.alloc(), lines)?);
        assert_eq!(rt; left.image.len(), 2264);
    }
    Ok(())
}

/// Fourteen items fill the queue of sixteen lines; it is emptied, and takes items again.
#[test]
fn a_queue_driven_full_and_empty(rt: HostRuntime) -> Result<(), Fail> {
    let mut commands = String::new(rt.alloc());
    let mut lines = String::new(rt.alloc());
    for round in 0..2u32 {
        for item in 0..15u32 {
            let place = 30 * round + item;
            let reply = if item < 14 { "done" } else { "full" };
            writeln!(commands, "enq {item}")?;
            writeln!(lines, "entry 0 {place} enq {item} = {reply}")?;
        }
        for item in 0..15u32 {
            let place = 30 * round + 15 + item;
            writeln!(commands, "deq")?;
            if item < 14 {
                writeln!(lines, "entry 0 {place} deq = is {item}")?;
            } else {
                writeln!(lines, "entry 0 {place} deq = empty")?;
            }
        }
    }
    let text = format!(in rt.alloc();
        "respct 1\nthreads 1\nshards 1\nlines 16\nevery 1024\nturns rr 10000\nkeep none\nthread 0\n{commands}end\n"
    )?;
    let wanted = format!(in rt.alloc(); "{REPORT_HEAD}{lines}saved 2\nflushed 18\nend finished\n")?;
    let left = answer(rt, "start", text.into_bytes(), NO_FAILS)?;
    assert_eq!(rt; left.status, Status::Finished);
    assert!(rt; left.report.as_slice() == wanted.as_bytes());
    Ok(())
}

/// The words of a line of an image, each of eight bytes with the lowest first.
pub(crate) fn line_of(image: &[u8], line: u32) -> [u64; 8] {
    let mut words = [0u64; 8];
    for w in 0..8usize {
        let at = 24 + 64 * line as usize + 8 * w;
        let mut bytes = [0u8; 8];
        for b in 0..8usize {
            bytes[b] = image.get(at + b).copied().unwrap_or(0);
        }
        words[w] = u64::from_le_bytes(bytes);
    }
    words
}

/// Lines of the images of one command: the super room's line 33, the map's header 0 and its first node 9.
#[test]
fn images_of_one_command(rt: HostRuntime) -> Result<(), Fail> {
    for (commands, turns, keep, line, words) in [
        ("", 0, "none", 33, [1, 0, 0, 0, 0, 0, 0, 0]),
        ("put 5 7\n", 45, "none", 33, [1, 0, 0, 0, 0, 0, 0, 0]),
        ("put 5 7\n", 45, "all", 33, [2, 0, 0, 0, 0, 0, 0, 0]),
        ("put 5 7\n", 49, "none", 33, [2, 0, 0, 0, 0, 0, 0, 0]),
        ("put 5 7\n", 49, "none", 9, [5, 7, 0, 0, 0, 0, 1, 0]),
        ("put 5 7\n", 6, "all", 0, [0, 9, 0, 0, 9, 0, 1, 0]),
        ("put 5 7\n", 6, "list 0:3", 0, [0, 9, 0, 0, 9, 0, 0, 0]),
        ("put 5 7\n", 6, "none", 0, [0, 9, 0, 0, 0, 0, 0, 0]),
    ] {
        let script = Script {
            every: 1,
            turns,
            keep,
            commands,
        };
        let left = led(rt, script)?;
        assert_eq!(rt; left.image.len(), 2200);
        assert_eq!(rt;
            line_of(&left.image, line),
            words,
            "line {line} after {turns} turns"
        );
    }
    Ok(())
}

/// Of a put that is cut behind four stores to the header: what these may leave, and what they may not.
#[test]
fn lines_that_a_cut_may_leave(rt: HostRuntime) -> Result<(), Fail> {
    let script = Script {
        turns: 6,
        ..ONE_PUT
    };
    let words = words_in(rt.alloc(), "start")?;
    let mut source = MemorySource::new(script.text(rt.alloc())?, Vec::new(rt.alloc()));
    let mut images = MemoryImages::new(rt.alloc(), Vec::new(rt.alloc()));
    let mut sink = MemorySink::new(rt.alloc(), Vec::new(rt.alloc()));
    let mut memory = Memory::empty(rt.alloc());
    let status = respct(
        &rt,
        &words,
        &mut source,
        &mut images,
        &mut sink,
        &mut memory,
    );
    assert_eq!(rt; status, Status::Cut);
    assert_eq!(rt; memory.rooms(), 4);
    for (header, may) in [
        ([0, 9, 0, 0, 9, 0, 1, 0], true),
        ([0, 9, 0, 0, 9, 0, 0, 0], true),
        ([0, 10, 0, 0, 9, 0, 1, 0], false),
    ] {
        let mut lines = [[0u64; 8]; 16];
        lines[0] = header;
        assert_eq!(rt; may_be_left(memory.bank(0), &lines), may);
    }
    Ok(())
}

/// The node of a removed key is taken again by the next put; a queue that is emptied has no last line.
#[test]
fn images_of_lines_given_back(rt: HostRuntime) -> Result<(), Fail> {
    for (commands, turns, line, words) in [
        (
            "put 5 7\nget 5\ndel 5\nput 6 8\n",
            85,
            9,
            [6, 8, 0, 5, 7, 0, 2, 0],
        ),
        (
            "put 5 7\nget 5\ndel 5\nput 6 8\n",
            85,
            7,
            [9, 0, 0, 0, 0, 0, 2, 0],
        ),
        ("enq 4\ndeq\n", 384, 17, [0, 0, 0, 0, 0, 0, 1, 0]),
        ("enq 4\ndeq\n", 384, 16, [2, 3, 0, 0, 2, 0, 1, 0]),
    ] {
        let script = Script {
            every: 2,
            turns,
            keep: "all",
            commands,
        };
        let left = led(rt, script)?;
        assert_eq!(rt;
            line_of(&left.image, line),
            words,
            "line {line} of {commands}"
        );
    }
    Ok(())
}

/// The first bytes of an image of one thread, one shard and rooms of 16 lines.
const HEAD: [u8; 24] = [
    0x52, 0x45, 0x53, 0x50, 0x43, 0x54, 0x49, 0x4d, 1, 0, 0, 0, 1, 0, 0, 0, 1, 0, 0, 0, 16, 0, 0, 0,
];

#[test]
fn images_by_their_names(rt: HostRuntime) -> Result<(), Fail> {
    for (words, name, other) in [
        ("start", DEFAULT_NAME, "other"),
        ("start --image other", "other", DEFAULT_NAME),
        ("start --image=other", "other", DEFAULT_NAME),
    ] {
        let left = answer_with(rt, words, ONE_PUT.text(rt.alloc())?, NO_FAILS, name)?;
        assert_eq!(rt; left.status, Status::Finished, "at {words:?}");
        assert_eq!(rt; left.image.len(), 2200, "at {words:?}");
        assert_eq!(rt; left.image.get(..24), Some(HEAD.as_slice()), "at {words:?}");
        let left = answer_with(rt, words, ONE_PUT.text(rt.alloc())?, NO_FAILS, other)?;
        assert_eq!(rt; left.image.len(), 0, "at {words:?}");
    }
    Ok(())
}

/// The answer to these words over this text and these images, and what was written.
pub(crate) fn told(
    rt: HostRuntime,
    words: &str,
    text: Vec<u8>,
    images: &mut MemoryImages,
) -> Result<(Status, Vec<u8>), AllocError> {
    told_with(rt, words, text, images, &[], &[])
}

/// The same, where these calls of the source and of the sink fail, each counted from 1.
pub(crate) fn told_with(
    rt: HostRuntime,
    words: &str,
    text: Vec<u8>,
    images: &mut MemoryImages,
    reads: &[u64],
    writes: &[u64],
) -> Result<(Status, Vec<u8>), AllocError> {
    let words = words_in(rt.alloc(), words)?;
    let mut source = MemorySource::new(text, Vec::from_slice(rt.alloc(), reads)?);
    let mut sink = MemorySink::new(rt.alloc(), Vec::from_slice(rt.alloc(), writes)?);
    let mut memory = Memory::empty(rt.alloc());
    let status = respct(&rt, &words, &mut source, images, &mut sink, &mut memory);
    Ok((status, Vec::from_slice(rt.alloc(), sink.bytes())?))
}

/// What a check tells of the image of one put, which is saved, or cut away.
#[test]
fn checks_of_what_a_start_left(rt: HostRuntime) -> Result<(), Fail> {
    for (turns, lines) in [
        (49, "epoch 2\nthread 0 1\nmap 5 7\nend\n"),
        (44, "epoch 1\nthread 0 0\nend\n"),
    ] {
        let script = Script { turns, ..ONE_PUT };
        let mut images = MemoryImages::new(rt.alloc(), Vec::new(rt.alloc()));
        let _led = told(rt, "start", script.text(rt.alloc())?, &mut images)?;
        let (status, state) = told(rt, "check", Vec::new(rt.alloc()), &mut images)?;
        assert_eq!(rt; status, Status::Finished);
        let wanted = format!(in rt.alloc(); "respct-state 1\n{lines}")?;
        assert!(rt; state == wanted.into_bytes(), "after {turns} turns");
    }
    Ok(())
}

#[test]
fn checks_that_are_refused(rt: HostRuntime) -> Result<(), Fail> {
    let mut images = MemoryImages::new(rt.alloc(), Vec::new(rt.alloc()));
    let (status, state) = told(rt, "check", Vec::new(rt.alloc()), &mut images)?;
    assert_eq!(rt; status, Status::NoImage);
    assert_eq!(rt; state.len(), 0);
    assert!(rt; images.save(DEFAULT_NAME, b"RESPCTIM").is_ok());
    let (status, state) = told(rt, "check", Vec::new(rt.alloc()), &mut images)?;
    assert_eq!(rt; status, Status::Image(ImageFault::Short));
    assert_eq!(rt; state.len(), 0);
    Ok(())
}

#[test]
fn other_words_are_refused(rt: HostRuntime) -> Result<(), Fail> {
    for words in [
        "begin",
        "start extra",
        "drill 01",
        "help",
        "start --image",
        "start --image=",
        "start --image -x",
        "start --image=-x",
        "start --image a b",
        "start --image a --image b",
        "check extra",
        "resume extra",
        "resume --image",
        "",
    ] {
        let left = answer(rt, words, Vec::new(rt.alloc()), NO_FAILS)?;
        assert_eq!(rt; left.status, Status::Usage, "at {words:?}");
    }
    Ok(())
}

/// A script whose threads run by themselves is not carried out yet; every other text has its first fault.
#[test]
fn texts_that_are_refused(rt: HostRuntime) -> Result<(), Fail> {
    for (text, line, kind) in [
        (LIVE, 0, 0),
        ("", 1, 10),
        ("respct 2\n", 1, 1),
        ("respct 1\nthreads 17\n", 2, 4),
    ] {
        let text = Vec::from_slice(rt.alloc(), text.as_bytes())?;
        let left = answer(rt, "start", text, NO_FAILS)?;
        assert_eq!(rt; left.status, Status::Script(ScriptFault { line, kind }));
        assert_eq!(rt; left.report.len() + left.image.len(), 0);
    }
    Ok(())
}

#[test]
fn a_second_read_that_fails(rt: HostRuntime) -> Result<(), Fail> {
    let fails = Fails {
        reads: &[2],
        ..NO_FAILS
    };
    let left = answer(rt, "start", ONE_PUT.text(rt.alloc())?, fails)?;
    assert_eq!(rt; left.status, Status::ReadFault);
    assert_eq!(rt; left.report.len() + left.image.len(), 0);
    Ok(())
}

#[test]
fn a_save_that_fails(rt: HostRuntime) -> Result<(), Fail> {
    let fails = Fails {
        saves: &[1],
        ..NO_FAILS
    };
    let left = answer(rt, "start", ONE_PUT.text(rt.alloc())?, fails)?;
    assert_eq!(rt; left.status, Status::StoreFault);
    assert_eq!(rt; left.report.len(), 0);
    Ok(())
}

#[test]
fn a_first_write_that_fails(rt: HostRuntime) -> Result<(), Fail> {
    let fails = Fails {
        writes: &[1],
        ..NO_FAILS
    };
    let left = answer(rt, "start", ONE_PUT.text(rt.alloc())?, fails)?;
    assert_eq!(rt; left.status, Status::WriteFault);
    assert_eq!(rt; left.report.len(), 0);
    assert_eq!(rt; left.image.len(), 2200);
    Ok(())
}

#[test]
fn a_source_past_the_limit_is_too_long(rt: HostRuntime) -> Result<(), Fail> {
    for (bytes, wanted) in [
        (8_388_608, Status::Script(ScriptFault { line: 1, kind: 10 })),
        (8_388_609, Status::TooLong),
    ] {
        let text = vec![in rt.alloc(); b' '; bytes]?;
        let left = answer(rt, "start", text, NO_FAILS)?;
        assert_eq!(rt; left.status, wanted, "at {bytes} bytes");
    }
    Ok(())
}

/// The answer to `start --image PATH` over the script of one put, with files as images.
fn saved_at(rt: HostRuntime, path: &str) -> Result<Status, AllocError> {
    let words = format!(in rt.alloc(); "start --image {path}")?;
    let words = words_in(rt.alloc(), &words)?;
    let mut source = MemorySource::new(ONE_PUT.text(rt.alloc())?, Vec::new(rt.alloc()));
    let mut images = FileImages::new(rt);
    let mut sink = MemorySink::new(rt.alloc(), Vec::new(rt.alloc()));
    let mut memory = Memory::empty(rt.alloc());
    Ok(respct(
        &rt,
        &words,
        &mut source,
        &mut images,
        &mut sink,
        &mut memory,
    ))
}

#[test]
fn an_image_in_a_file(rt: HostRuntime) -> Result<(), Fail> {
    let path = format!(in rt.alloc(); "{}/respct_put.image", env::temp_dir(&rt)?.display())?;
    assert_eq!(rt; saved_at(rt, &path)?, Status::Finished);
    let file = FileImages::new(rt).load(rt.alloc(), &path)?;
    fs::remove_file(&rt, &path)?;
    let bytes = file.unwrap_or(Vec::new(rt.alloc()));
    assert_eq!(rt; bytes.len(), 2200);
    assert_eq!(rt; bytes.get(..24), Some(HEAD.as_slice()));
    Ok(())
}

#[test]
fn an_image_in_a_missing_folder(rt: HostRuntime) -> Result<(), Fail> {
    let path = format!(in rt.alloc();
        "{}/respct_no_such_folder/put.image",
        env::temp_dir(&rt)?.display()
    )?;
    assert_eq!(rt; saved_at(rt, &path)?, Status::StoreFault);
    Ok(())
}

#[test]
fn each_status_has_its_code_and_text(rt: HostRuntime) -> Result<(), Fail> {
    let fault = ScriptFault { line: 3, kind: 2 };
    for (status, code, text) in [
        (Status::Finished, 0, "finished"),
        (
            Status::Usage,
            1,
            "usage: respct start, resume or check with --image NAME, or respct drill N",
        ),
        (Status::Script(fault), 2, "script: line 3: setting"),
        (Status::Stalled, 3, "stalled"),
        (Status::Cut, 4, "cut"),
        (
            Status::Image(ImageFault::TagAhead { room: 3, line: 0 }),
            5,
            "image: tag ahead, room 3, line 0",
        ),
        (
            Status::Misfit(Misfit {
                kind: MisfitKind::Position(3),
                image: 2,
                script: 1,
            }),
            6,
            "misfit: position of thread 3 2, 1",
        ),
        (Status::ReadFault, 7, "cannot read the script"),
        (Status::WriteFault, 8, "cannot write the report"),
        (Status::StoreFault, 9, "cannot use the image store"),
        (Status::NoImage, 10, "no such image"),
        (Status::OutOfMemory, 11, "out of memory"),
        (Status::TooLong, 12, "script too long"),
    ] {
        assert_eq!(rt; status.code(), code);
        assert!(rt;
            format!(in rt.alloc(); "{status}")?.as_str() == text,
            "at code {code}"
        );
        assert_eq!(rt; status.is_refusal(), code != 0 && code != 3 && code != 4);
    }
    Ok(())
}
