//! What no clause says: that the calls succeed, the first bytes of an image as they stand in a file, and the texts of the
//! faults.

ghost use Rattle.std.specs.Prelude.{IfOk};
ghost use Rattle.power_cut.specs.Image.{IsWhole};

use crate::{Image, ImageFault, ReadImageRefusal, cut, image_bytes, image_memory, read_image};
use seq_object::Settings;
use std::alloc::{AllocError, Global};
use std::process::Abort;
use std::test::Fail;
use store_order::Choice;

const HEAD: [u8; 24] = [
    0x52, 0x45, 0x53, 0x50, 0x43, 0x54, 0x49, 0x4d, 1, 0, 0, 0, 1, 0, 0, 0, 1, 0, 0, 0, 16, 0, 0, 0,
];

/// The bytes of an image of one thread, one shard and 16 lines: the head, and then 34 lines. Line g has g as its first word,
/// and 256 * g as its last.
fn bytes_by_hand(rt: &impl Abort, alloc: Global) -> Result<Vec<u8>, AllocError> {
    let mut bytes = vec![in alloc; 0u8; 2200]?;
    for (i, byte) in HEAD.iter().enumerate() {
        set(rt, &mut bytes, i, *byte);
    }
    for g in 0..34usize {
        set(rt, &mut bytes, 24 + 64 * g, g as u8);
        set(rt, &mut bytes, 24 + 64 * g + 57, g as u8);
    }
    Ok(bytes)
}

/// Writes one byte.
fn set(rt: &impl Abort, bytes: &mut Vec<u8>, at: usize, byte: u8) {
    assert!(rt; at < bytes.len());
    bytes[at] = byte;
}

/// The fault of these bytes; `None` where there is none.
fn fault_of(alloc: Global, bytes: &[u8]) -> Result<Option<ImageFault>, AllocError> {
    match read_image(alloc, bytes) {
        Ok(_image) => Ok(None),
        Err(ReadImageRefusal::Fault(fault)) => Ok(Some(fault)),
        Err(ReadImageRefusal::OutOfMemory) => Err(AllocError),
    }
}

/// The image that these bytes spell.
fn image_of(rt: &impl Abort, alloc: Global, bytes: &[u8]) -> Result<Image, AllocError>
    ensures { IfOk result IsWhole }
{
    match read_image(alloc, bytes) {
        Ok(image) => Ok(image),
        Err(refusal) => {
            assert!(rt; refusal == ReadImageRefusal::OutOfMemory);
            Err(AllocError)
        }
    }
}

#[test]
fn bytes_there_and_back(rt: HostRuntime) -> Result<(), Fail> {
    let alloc = rt.alloc();
    let bytes = bytes_by_hand(&rt, alloc)?;
    let image = image_of(&rt, alloc, bytes.as_slice())?;
    assert_eq!(rt;
        (image.threads, image.shards, image.lines, image.rooms.len()),
        (1, 1, 16, 4)
    );
    assert!(rt;
        image.threads == 1 && image.shards == 1 && image.lines == 16 && image.rooms.len() == 4
    );
    assert_eq!(rt;
        image.rooms[1].as_slice().get(2).copied(),
        Some([18, 0, 0, 0, 0, 0, 0, 18 * 256])
    );
    assert_eq!(rt;
        image.rooms[3].as_slice().get(0).copied(),
        Some([33, 0, 0, 0, 0, 0, 0, 33 * 256])
    );
    let again = image_bytes(alloc, &image)?;
    assert!(rt; again.as_slice() == bytes.as_slice());
    Ok(())
}

#[test]
fn a_memory_and_its_image(rt: HostRuntime) -> Result<(), Fail> {
    let alloc = rt.alloc();
    let bytes = bytes_by_hand(&rt, alloc)?;
    let memory = image_memory(alloc, image_of(&rt, alloc, bytes.as_slice())?)?;
    let settings = Settings {
        threads: 1,
        shards: 1,
        lines: 16,
        every: 2,
    };
    let image = cut(alloc, &memory, &settings, &Choice::All)?;
    assert!(rt; image.rooms.len() == 4);
    for (room, line, word) in [(0, 0, 0), (0, 15, 15), (1, 2, 18), (2, 0, 32), (3, 0, 33)] {
        assert!(rt; room < 4);
        assert_eq!(rt;
            image.rooms[room].as_slice().get(line).copied(),
            Some([word, 0, 0, 0, 0, 0, 0, 256 * word]),
            "line {line} of room {room}"
        );
    }
    Ok(())
}

#[test]
fn first_faults(rt: HostRuntime) -> Result<(), Fail> {
    let alloc = rt.alloc();
    for (at, byte, fault) in [
        (0, 0x53, ImageFault::Magic),
        (7, 0x4e, ImageFault::Magic),
        (8, 2, ImageFault::Version),
        (11, 1, ImageFault::Version),
        (12, 0, ImageFault::Settings),
        (12, 17, ImageFault::Settings),
        (16, 0, ImageFault::Settings),
        (16, 9, ImageFault::Settings),
        (20, 15, ImageFault::Settings),
        (20, 17, ImageFault::Short),
        (12, 2, ImageFault::Short),
    ] {
        let mut bytes = bytes_by_hand(&rt, alloc)?;
        set(&rt, &mut bytes, at, byte);
        assert_eq!(rt; fault_of(alloc, bytes.as_slice())?, Some(fault), "at {at}");
    }
    let mut bytes = bytes_by_hand(&rt, alloc)?;
    bytes.push(0)?;
    assert_eq!(rt; fault_of(alloc, bytes.as_slice())?, Some(ImageFault::Long));
    set(&rt, &mut bytes, 8, 2);
    assert_eq!(rt;
        fault_of(alloc, bytes.as_slice())?,
        Some(ImageFault::Version)
    );
    Ok(())
}

#[test]
fn every_prefix_is_short(rt: HostRuntime) -> Result<(), Fail> {
    let alloc = rt.alloc();
    let bytes = bytes_by_hand(&rt, alloc)?;
    for n in 0..2200usize {
        assert!(rt; n <= bytes.len());
        assert_eq!(rt;
            fault_of(alloc, &bytes.as_slice()[..n])?,
            Some(ImageFault::Short)
        );
    }
    Ok(())
}

#[test]
fn texts_of_faults(rt: HostRuntime) -> Result<(), Fail> {
    let alloc = rt.alloc();
    for (fault, text) in [
        (ImageFault::Short, "short"),
        (ImageFault::Long, "long"),
        (ImageFault::Magic, "magic"),
        (ImageFault::Version, "version"),
        (ImageFault::Settings, "settings"),
        (ImageFault::Epoch, "epoch"),
        (
            ImageFault::TagAhead { room: 3, line: 14 },
            "tag ahead, room 3, line 14",
        ),
        (ImageFault::Header { room: 1 }, "header, room 1"),
        (ImageFault::Chain { room: 0 }, "chain, room 0"),
        (ImageFault::FreeList { room: 2 }, "free list, room 2"),
        (ImageFault::Count { room: 8 }, "count, room 8"),
        (ImageFault::Ends { room: 9 }, "ends, room 9"),
    ] {
        assert_eq!(rt; format!(in alloc; "{fault}")?.as_str(), text);
    }
    Ok(())
}
