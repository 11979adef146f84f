//! Images by hand: what is found of them, what of them does not fit a script, and the text of a check.

use crate::checking::{NotChecked, check};
use crate::fitting::{Misfit, MisfitKind, misfit_of};
use crate::loading::{Loaded, NotLoaded, load};
use byte_ports::{MemoryImages, MemorySink, StoreRefusal};
use power_cut::ImageFault;
use script_text::{Mode, Script};
use seq_object::{Command, Settings};
use std::alloc::{AllocError, Global};
use std::process::Abort;
use std::test::Fail;
use store_order::Choice;

/// The first bytes of an image of one thread, one shard and rooms of 16 lines.
const HEAD: [u8; 24] = [
    0x52, 0x45, 0x53, 0x50, 0x43, 0x54, 0x49, 0x4d, 1, 0, 0, 0, 1, 0, 0, 0, 1, 0, 0, 0, 16, 0, 0, 0,
];

/// The first line of the map room that was never given out, that of the queue room, and the epoch: by line, byte and value.
const FORMATTED: [(usize, usize, u8); 3] = [(0, 8, 9), (16, 8, 2), (33, 0, 1)];

/// The same after `put 5 7` and `enq 4`, saved at epoch 2.
const SAVED: [(usize, usize, u8); 21] = [
    (0, 8, 10),
    (0, 16, 1),
    (0, 32, 9),
    (0, 48, 1),
    (6, 0, 9),
    (6, 48, 1),
    (9, 0, 5),
    (9, 8, 7),
    (9, 48, 1),
    (16, 8, 3),
    (16, 16, 1),
    (16, 32, 2),
    (16, 48, 1),
    (17, 0, 2),
    (17, 8, 2),
    (17, 48, 1),
    (18, 0, 4),
    (18, 48, 1),
    (32, 0, 2),
    (32, 48, 1),
    (33, 0, 2),
];

/// The bytes of an image of 34 lines that has these values, by line and byte, and 0 elsewhere.
fn image_of(
    rt: &impl Abort,
    alloc: Global,
    values: &[(usize, usize, u8)],
) -> Result<Vec<u8>, AllocError> {
    let mut bytes = vec![in alloc; 0u8; 2200]?;
    for (i, byte) in HEAD.iter().enumerate() {
        set(rt, &mut bytes, i, *byte);
    }
    for &(line, byte, value) in values {
        assert!(rt; line < 34 && byte < 64);
        set(rt, &mut bytes, 24 + 64 * line + byte, value);
    }
    Ok(bytes)
}

/// Writes one byte.
fn set(rt: &impl Abort, bytes: &mut Vec<u8>, at: usize, byte: u8) {
    assert!(rt; at < bytes.len());
    bytes[at] = byte;
}

/// What a check answers that finds these bytes under its name, and what it writes.
fn checked(
    rt: HostRuntime,
    bytes: Vec<u8>,
) -> Result<(Result<(), NotChecked>, Vec<u8>), AllocError> {
    let mut images = MemoryImages::new(rt.alloc(), Vec::new(rt.alloc()));
    images.put("a", bytes)?;
    let mut sink = MemorySink::new(rt.alloc(), Vec::new(rt.alloc()));
    let answer = check(rt.alloc(), &mut images, "a", &mut sink);
    Ok((answer, Vec::from_slice(rt.alloc(), sink.bytes())?))
}

#[test]
fn texts_of_two_images(rt: HostRuntime) -> Result<(), Fail> {
    for (values, text) in [
        (
            FORMATTED.as_slice(),
            "respct-state 1\nepoch 1\nthread 0 0\nend\n",
        ),
        (
            SAVED.as_slice(),
            "respct-state 1\nepoch 2\nthread 0 2\nmap 5 7\nitem 4\nend\n",
        ),
    ] {
        let (answer, written) = checked(rt, image_of(&rt, rt.alloc(), values)?)?;
        assert_eq!(rt; answer, Ok(()));
        assert!(rt; written.as_slice() == text.as_bytes());
    }
    Ok(())
}

/// One byte of a formatted image is changed, counted from 0: the first byte, that of the version, and the tag of line 3.
#[test]
fn images_with_a_fault(rt: HostRuntime) -> Result<(), Fail> {
    for (at, byte, fault) in [
        (0, 0x53, ImageFault::Magic),
        (8, 2, ImageFault::Version),
        (264, 2, ImageFault::TagAhead { room: 0, line: 3 }),
        (2136, 0, ImageFault::Epoch),
    ] {
        let mut bytes = image_of(&rt, rt.alloc(), &FORMATTED)?;
        set(&rt, &mut bytes, at, byte);
        let (answer, written) = checked(rt, bytes)?;
        assert_eq!(rt; answer, Err(NotChecked::Unloaded(NotLoaded::Fault(fault))));
        assert_eq!(rt; written.len(), 0);
    }
    Ok(())
}

#[test]
fn an_empty_image_is_short(rt: HostRuntime) -> Result<(), Fail> {
    let (answer, written) = checked(rt, Vec::new(rt.alloc()))?;
    assert_eq!(rt;
        answer,
        Err(NotChecked::Unloaded(NotLoaded::Fault(ImageFault::Short)))
    );
    assert_eq!(rt; written.len(), 0);
    Ok(())
}

#[test]
fn a_name_without_an_image(rt: HostRuntime) -> Result<(), Fail> {
    let mut images = MemoryImages::new(rt.alloc(), Vec::new(rt.alloc()));
    images.put("a", image_of(&rt, rt.alloc(), &FORMATTED)?)?;
    let mut sink = MemorySink::new(rt.alloc(), Vec::new(rt.alloc()));
    let answer = check(rt.alloc(), &mut images, "b", &mut sink);
    assert_eq!(rt; answer, Err(NotChecked::Unloaded(NotLoaded::Missing)));
    Ok(())
}

/// The first call of the store or of the sink fails.
#[test]
fn faults_of_the_store_and_of_the_sink(rt: HostRuntime) -> Result<(), Fail> {
    for (loads, writes, refusal) in [
        ([1], [0], NotChecked::Unloaded(NotLoaded::Failed)),
        ([0], [1], NotChecked::Unwritten(StoreRefusal::Failed)),
    ] {
        let mut images = MemoryImages::new(rt.alloc(), Vec::from_slice(rt.alloc(), &loads)?);
        images.put("a", image_of(&rt, rt.alloc(), &FORMATTED)?)?;
        let mut sink = MemorySink::new(rt.alloc(), Vec::from_slice(rt.alloc(), &writes)?);
        let answer = check(rt.alloc(), &mut images, "a", &mut sink);
        assert_eq!(rt; answer, Err(refusal));
    }
    Ok(())
}

/// The image of these values, loaded.
fn loaded(
    rt: &impl Abort,
    alloc: Global,
    values: &[(usize, usize, u8)],
) -> Result<Loaded, AllocError> {
    let mut images = MemoryImages::new(alloc, Vec::new(alloc));
    images.put("a", image_of(rt, alloc, values)?)?;
    match load(alloc, &mut images, "a") {
        Ok(loaded) => Ok(loaded),
        Err(refusal) => {
            assert!(rt; refusal == NotLoaded::OutOfMemory);
            Err(AllocError)
        }
    }
}

/// A script of one thread, with these sizes and so many commands.
fn script_of(
    alloc: Global,
    shards: u32,
    lines: u32,
    commands: usize,
) -> Result<Script, AllocError> {
    let mut threads = Vec::new(alloc);
    threads.push(vec![in alloc; Command::Deq; commands]?)?;
    Ok(Script {
        settings: Settings {
            threads: 1,
            shards,
            lines,
            every: 5,
        },
        mode: Mode::RoundRobin(1),
        keep: Choice::Nothing,
        threads,
    })
}

#[test]
fn misfits_of_an_image(rt: HostRuntime) -> Result<(), Fail> {
    let two = |kind, image, script| {
        Some(Misfit {
            kind,
            image,
            script,
        })
    };
    for (shards, lines, commands, misfit) in [
        (1, 16, 2, None),
        (1, 16, 9, None),
        (2, 32, 1, two(MisfitKind::Shards, 1, 2)),
        (1, 32, 1, two(MisfitKind::Lines, 16, 32)),
        (1, 16, 1, two(MisfitKind::Position(0), 2, 1)),
    ] {
        let loaded = loaded(&rt, rt.alloc(), &SAVED)?;
        let script = script_of(rt.alloc(), shards, lines, commands)?;
        assert_eq!(rt; misfit_of(&loaded.image, &loaded.found, &script), misfit);
    }
    Ok(())
}

/// The epochs 4,278,190,079 and 4,278,190,080: the super room's line 33 by bytes.
#[test]
fn the_last_epoch_that_fits(rt: HostRuntime) -> Result<(), Fail> {
    for (low, high, misfit) in [
        (255, 254, None),
        (
            0,
            255,
            Some(Misfit {
                kind: MisfitKind::Epoch,
                image: 4_278_190_080,
                script: 4_278_190_080,
            }),
        ),
    ] {
        let values = [
            (0, 8, 9),
            (16, 8, 2),
            (33, 0, low),
            (33, 1, low),
            (33, 2, low),
            (33, 3, high),
        ];
        let loaded = loaded(&rt, rt.alloc(), &values)?;
        let script = script_of(rt.alloc(), 1, 16, 0)?;
        assert_eq!(rt; misfit_of(&loaded.image, &loaded.found, &script), misfit);
    }
    Ok(())
}

#[test]
fn texts_of_misfits(rt: HostRuntime) -> Result<(), Fail> {
    for (kind, text) in [
        (MisfitKind::Threads, "threads 2, 1"),
        (MisfitKind::Shards, "shards 2, 1"),
        (MisfitKind::Lines, "lines 2, 1"),
        (MisfitKind::Position(3), "position of thread 3 2, 1"),
        (MisfitKind::Epoch, "epoch 2, 1"),
    ] {
        let misfit = Misfit {
            kind,
            image: 2,
            script: 1,
        };
        assert!(rt; format!(in rt.alloc(); "{misfit}")?.as_str() == text);
    }
    Ok(())
}
