//! Resumes of the whole program over images in memory, with the answers that its pages state or that were worked out by hand.

use crate::fitting::{Misfit, MisfitKind};
use crate::status::Status;
use crate::tests::{DEFAULT_NAME, ONE_PUT, Script, line_of, told, told_with};
use byte_ports::{Images, MemoryImages};
use power_cut::ImageFault;
use std::alloc::{AllocError, Global};
use std::process::Abort;
use std::test::Fail;

/// The answer to these words over the script of one put with so many turns, which keeps all, and over these images; and what was written.
fn step(
    rt: HostRuntime,
    images: &mut MemoryImages,
    words: &str,
    turns: u32,
) -> Result<(Status, Vec<u8>), AllocError> {
    let script = Script {
        turns,
        keep: "all",
        ..ONE_PUT
    };
    told(rt, words, script.text(rt.alloc())?, images)
}

/// Images with the one that a start of one put leaves that is cut behind so many turns.
fn left_of_one_put(rt: HostRuntime, turns: u32) -> Result<MemoryImages, AllocError> {
    let mut images = MemoryImages::new(rt.alloc(), Vec::new(rt.alloc()));
    let _told = step(rt, &mut images, "start", turns)?;
    Ok(images)
}

/// The same, in which the byte at this place of the image is changed.
fn left_with(rt: HostRuntime, turns: u32, at: usize, byte: u8) -> Result<MemoryImages, AllocError> {
    let mut images = left_of_one_put(rt, turns)?;
    let mut bytes = image_in(rt.alloc(), &images)?;
    if at < bytes.len() {
        bytes[at] = byte;
    }
    images.put(DEFAULT_NAME, bytes)?;
    Ok(images)
}

/// The bytes under the name that is taken where the words give none.
fn image_in(alloc: Global, images: &MemoryImages) -> Result<Vec<u8>, AllocError> {
    Vec::from_slice(alloc, images.get(DEFAULT_NAME).unwrap_or(&[]))
}

/// A start is cut before the epoch is stored, its recovery is cut behind two events, the next is cut with its last event, and another
/// resume carries the put out. Behind it a resume has nothing to do but its recovery, which is cut, or finishes it at once.
#[test]
fn one_put_over_many_lives(rt: HostRuntime) -> Result<(), Fail> {
    let mut images = MemoryImages::new(rt.alloc(), Vec::new(rt.alloc()));
    for (words, turns, status, text) in [
        (
            "start",
            44,
            Status::Cut,
            "respct-report 1\nlife start\nbegan 1\nentry 0 0 put 5 7 = new\nheld 3\nflushed 4\nend cut\n",
        ),
        (
            "resume",
            2,
            Status::Cut,
            "respct-report 1\nlife resume\nbegan 1\nflushed 0\nend cut\n",
        ),
        (
            "check",
            0,
            Status::Finished,
            "respct-state 1\nepoch 1\nthread 0 0\nend\n",
        ),
        (
            "resume",
            21,
            Status::Cut,
            "respct-report 1\nlife resume\nbegan 1\nsaved 2\nflushed 5\nend cut\n",
        ),
        (
            "check",
            0,
            Status::Finished,
            "respct-state 1\nepoch 2\nthread 0 0\nend\n",
        ),
        (
            "resume",
            52,
            Status::Finished,
            "respct-report 1\nlife resume\nbegan 2\nsaved 3\nentry 0 0 put 5 7 = new\nsaved 4\nflushed 6\nend finished\n",
        ),
        (
            "resume",
            2,
            Status::Cut,
            "respct-report 1\nlife resume\nbegan 4\nflushed 1\nend cut\n",
        ),
        (
            "resume",
            3,
            Status::Finished,
            "respct-report 1\nlife resume\nbegan 5\nsaved 6\nflushed 1\nend finished\n",
        ),
        (
            "check",
            0,
            Status::Finished,
            "respct-state 1\nepoch 6\nthread 0 1\nmap 5 7\nend\n",
        ),
    ] {
        let (ended, written) = step(rt, &mut images, words, turns)?;
        assert_eq!(rt; ended, status, "at {words} with {turns} turns");
        assert!(rt;
            written.as_slice() == text.as_bytes(),
            "at {words} with {turns} turns"
        );
    }
    Ok(())
}

/// The whole way in two lives, and the map's header in the image of a recovery that was cut.
#[test]
fn a_recovery_that_is_cut(rt: HostRuntime) -> Result<(), Fail> {
    let mut images = left_of_one_put(rt, 44)?;
    let _told = step(rt, &mut images, "resume", 2)?;
    let bytes = image_in(rt.alloc(), &images)?;
    assert_eq!(rt; line_of(&bytes, 0), [0, 9, 1, 0, 9, 0, 1, 0]);
    let (status, written) = step(rt, &mut images, "resume", 70)?;
    assert_eq!(rt; status, Status::Finished);
    assert!(rt;
        written.as_slice()
            == b"respct-report 1\nlife resume\nbegan 1\nsaved 2\nentry 0 0 put 5 7 = new\nsaved 3\nflushed 10\nend finished\n".as_slice()
    );
    Ok(())
}

/// A script without a command whose numbers these are.
fn script_with(
    alloc: Global,
    threads: u32,
    shards: u32,
    lines: u32,
    commands: &str,
) -> Result<Vec<u8>, AllocError> {
    let mut text = format!(in alloc;
        "respct 1\nthreads {threads}\nshards {shards}\nlines {lines}\nevery 3\nturns rr 100\nkeep none\nthread 0\n{commands}"
    )?;
    for thread in 1..threads {
        text.push_str(&format!(in alloc; "thread {thread}\n")?)?;
    }
    text.push_str("end\n")?;
    Ok(text.into_bytes())
}

/// A misfit of these two numbers.
fn two(kind: MisfitKind, image: u64, script: u64) -> Status {
    Status::Misfit(Misfit {
        kind,
        image,
        script,
    })
}

/// Of an image of the last epoch but some, each script misfits in one thing less than the one before.
#[test]
fn the_first_misfit_is_told(rt: HostRuntime) -> Result<(), Fail> {
    let mut images = left_with(rt, 49, 2139, 255)?;
    let before = image_in(rt.alloc(), &images)?;
    for (threads, shards, lines, commands, status) in [
        (2, 2, 32, "", two(MisfitKind::Threads, 1, 2)),
        (1, 2, 32, "", two(MisfitKind::Shards, 1, 2)),
        (1, 1, 32, "", two(MisfitKind::Lines, 16, 32)),
        (1, 1, 16, "", two(MisfitKind::Position(0), 1, 0)),
        (
            1,
            1,
            16,
            "get 5\n",
            two(MisfitKind::Epoch, 4_278_190_082, 4_278_190_080),
        ),
    ] {
        let text = script_with(rt.alloc(), threads, shards, lines, commands)?;
        let (ended, written) = told(rt, "resume", text, &mut images)?;
        assert_eq!(rt; ended, status);
        assert_eq!(rt; written.len(), 0);
    }
    assert!(rt; image_in(rt.alloc(), &images)? == before);
    Ok(())
}

/// An image of epoch 2 that was changed in one byte: the tag of line 9, the place of the node behind it, and the epoch.
#[test]
fn images_that_are_refused(rt: HostRuntime) -> Result<(), Fail> {
    for (at, byte, fault) in [
        (648, 3, ImageFault::TagAhead { room: 0, line: 9 }),
        (616, 9, ImageFault::Chain { room: 0 }),
        (2136, 0, ImageFault::Epoch),
    ] {
        let mut images = left_with(rt, 49, at, byte)?;
        let (ended, written) = step(rt, &mut images, "resume", 100)?;
        assert_eq!(rt; ended, Status::Image(fault), "at {at}");
        assert_eq!(rt; written.len(), 0);
    }
    Ok(())
}

/// The script is judged before the image, and both before the life.
#[test]
fn the_order_of_refusals(rt: HostRuntime) -> Result<(), Fail> {
    let mut images = MemoryImages::new(rt.alloc(), Vec::new(rt.alloc()));
    let (ended, _written) = told(rt, "resume", Vec::new(rt.alloc()), &mut images)?;
    assert_eq!(rt; ended.code(), 2);
    let (ended, written) = step(rt, &mut images, "resume", 70)?;
    assert_eq!(rt; ended, Status::NoImage);
    assert_eq!(rt; written.len(), 0);
    Ok(())
}

/// The first call of the store fails at the load of a resume, and the second at its save.
#[test]
fn a_store_that_fails(rt: HostRuntime) -> Result<(), Fail> {
    let left = left_of_one_put(rt, 44)?;
    for fails in [[1], [2]] {
        let mut images = MemoryImages::new(rt.alloc(), Vec::from_slice(rt.alloc(), &fails)?);
        images.put(DEFAULT_NAME, image_in(rt.alloc(), &left)?)?;
        let (ended, written) = step(rt, &mut images, "resume", 70)?;
        assert_eq!(rt; ended, Status::StoreFault);
        assert_eq!(rt; written.len(), 0);
    }
    Ok(())
}

/// Each read of a resume fails in turn: nothing is written, and the image stays as it was. Of the two reads the second tells that the
/// source has no more.
#[test]
fn a_source_that_fails(rt: HostRuntime) -> Result<(), Fail> {
    for read in [1, 2] {
        let mut images = left_of_one_put(rt, 44)?;
        let before = image_in(rt.alloc(), &images)?;
        let (ended, written) = one_put(rt, &mut images, &[read], &[])?;
        assert_eq!(rt; ended, Status::ReadFault);
        assert_eq!(rt; written.len(), 0);
        assert!(rt;
            image_in(rt.alloc(), &images)? == before,
            "the image is as before"
        );
    }
    Ok(())
}

/// The write of a resume's report fails: nothing is written, and the image is that of the life.
#[test]
fn a_sink_that_fails(rt: HostRuntime) -> Result<(), Fail> {
    let mut images = left_of_one_put(rt, 44)?;
    let (ended, written) = one_put(rt, &mut images, &[], &[1])?;
    assert_eq!(rt; ended, Status::WriteFault);
    assert_eq!(rt; written.len(), 0);
    let mut whole = left_of_one_put(rt, 44)?;
    let (ended, _written) = one_put(rt, &mut whole, &[], &[])?;
    assert_eq!(rt; ended, Status::Finished);
    assert!(rt;
        image_in(rt.alloc(), &images)? == image_in(rt.alloc(), &whole)?,
        "the image is saved"
    );
    Ok(())
}

/// A resume of one put over these images, where these calls of the source and of the sink fail.
fn one_put(
    rt: HostRuntime,
    images: &mut MemoryImages,
    reads: &[u64],
    writes: &[u64],
) -> Result<(Status, Vec<u8>), AllocError> {
    let script = Script {
        turns: 70,
        keep: "all",
        ..ONE_PUT
    };
    told_with(
        rt,
        "resume",
        script.text(rt.alloc())?,
        images,
        reads,
        writes,
    )
}

/// Four threads of eight commands each, with these turns.
fn four_threads(alloc: Global, turns: u32, keep: &str) -> Result<Vec<u8>, AllocError> {
    let mut text = format!(in alloc;
        "respct 1\nthreads 4\nshards 3\nlines 64\nevery 3\nturns rr {turns}\nkeep {keep}\n"
    )?;
    for (thread, commands) in [
        "put 1 10\nput 2 20\nget 1\ndel 2\nenq 100\nput 1 11\nenq 101\nget 2\n",
        "put 3 30\nput 4 40\nget 3\ndel 4\nenq 200\nput 3 31\ndeq\nget 4\n",
        "put 5 50\nput 6 60\nget 5\ndel 6\nenq 300\nput 5 51\nenq 301\nget 6\n",
        "put 7 70\nput 8 80\nget 7\ndel 8\nenq 400\nput 7 71\ndeq\nget 8\n",
    ]
    .iter()
    .enumerate()
    {
        text.push_str(&format!(in alloc; "thread {thread}\n{commands}")?)?;
    }
    text.push_str("end\n")?;
    Ok(text.into_bytes())
}

/// Lines of a state behind its epoch, and how many of its lines are items.
fn found_in<'a>(rt: &impl Abort, state: &'a [u8], part: &str) -> (bool, usize) {
    let text = str::from_utf8(state).expect(rt, "a text");
    let items = text
        .lines()
        .filter(|line| line.starts_with("item "))
        .count();
    (text.contains(part), items)
}

/// A start that is cut in the middle, and its resume to the end: each command is carried out once.
#[test]
fn four_threads_over_two_lives(rt: HostRuntime) -> Result<(), Fail> {
    let mut images = MemoryImages::new(rt.alloc(), Vec::new(rt.alloc()));
    let text = four_threads(rt.alloc(), 400, "seed 7")?;
    let (ended, _written) = told(rt, "start", text, &mut images)?;
    assert_eq!(rt; ended, Status::Cut);
    let text = four_threads(rt.alloc(), 100_000, "none")?;
    let (ended, _written) = told(rt, "resume", text, &mut images)?;
    assert_eq!(rt; ended, Status::Finished);
    let (ended, state) = told(rt, "check", Vec::new(rt.alloc()), &mut images)?;
    assert_eq!(rt; ended, Status::Finished);
    let part =
        "\nthread 0 8\nthread 1 8\nthread 2 8\nthread 3 8\nmap 1 11\nmap 3 31\nmap 5 51\nmap 7 71\nitem ";
    assert_eq!(rt; found_in(&rt, state.as_slice(), part), (true, 4));
    Ok(())
}
