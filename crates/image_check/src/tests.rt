//! Two images by hand, what they recover to, and what is wrong with them where one word is changed.
//!
//! The first is the image of one thread's `put 5 7` on one shard of 16 lines, with a checkpoint after each command, when it
//! has finished: the put took line 9 in epoch 1, the thread stood, and the epoch became 2. The second is one of two threads
//! and two shards, with a chain of two nodes, a free line and three items.

ghost use Rattle.std.specs.Prelude.{IsTrue, IfOk};
ghost use Rattle.incll_var.specs.Cells.{MayRestore, AreSettled};
ghost use Rattle.power_cut.specs.Image.{IsWhole};

use crate::{Recovered, check_image};
use incll_var::{CellBank, CellState, RestoreStep};
use line_memory::Bank;
use power_cut::{Image, ImageFault, ReadImageRefusal, image_memory, read_image};
use seq_object::Pair;
use std::alloc::{AllocError, Global};
use std::process::Abort;
use std::test::Fail;

/// A word of an image: the number of its line through all rooms, its number in the line, and its value.
type Word = (usize, usize, u64);

/// The words of the first image that are not 0. Lines 0 to 15 are the map room, 16 to 31 the queue room, 32 the thread's
/// line and 33 the super room's.
const PUT: [Word; 13] = [
    (0, 1, 10),
    (0, 2, 1),
    (0, 4, 9),
    (0, 6, 1),
    (6, 0, 9),
    (6, 6, 1),
    (9, 0, 5),
    (9, 1, 7),
    (9, 6, 1),
    (16, 1, 2),
    (32, 0, 1),
    (32, 6, 1),
    (33, 0, 2),
];

/// The words of the image that keeps all of the same put, cut behind the fourth store of its header: the backup and the tag
/// are stored, and the record is not.
const CUT_PUT: [Word; 5] = [(0, 1, 9), (0, 4, 9), (0, 6, 1), (16, 1, 2), (33, 0, 1)];

/// The words of the second image that are not 0. Lines 0 to 15 and 16 to 31 are the map rooms, 32 to 47 the queue room, 48
/// and 49 the threads' lines and 50 the super room's. The second thread's line was written in epoch 7, so its backup counts.
const MANY: [Word; 33] = [
    (0, 1, 11),
    (0, 2, 2),
    (6, 0, 9),
    (3, 0, 10),
    (9, 0, 10),
    (9, 1, 100),
    (10, 0, 4),
    (10, 1, 40),
    (16, 0, 11),
    (16, 1, 12),
    (16, 2, 2),
    (18, 0, 9),
    (25, 0, 19),
    (25, 1, 190),
    (25, 2, 10),
    (26, 0, 3),
    (26, 1, 30),
    (32, 1, 5),
    (32, 2, 3),
    (33, 0, 4),
    (33, 1, 3),
    (36, 0, 70),
    (36, 1, 2),
    (34, 0, 71),
    (34, 1, 3),
    (35, 0, 72),
    (48, 0, 6),
    (48, 6, 3),
    (49, 0, 12),
    (49, 3, 9),
    (49, 6, 7),
    (50, 0, 7),
    (50, 5, 1000),
];

/// The image of so many threads and shards with 16 lines each room that has these words, and then this one.
fn image_with(
    rt: &impl Abort,
    alloc: Global,
    threads: u8,
    shards: u8,
    words: &[Word],
    last: Word,
) -> Result<Image, AllocError>
    ensures { IfOk result IsWhole }
{
    let lines = (usize::from(shards) + 1) * 16 + usize::from(threads) + 1;
    let mut bytes = vec![in alloc; 0u8; 24 + 64 * lines]?;
    for (i, byte) in b"RESPCTIM".iter().enumerate() {
        set_byte(rt, &mut bytes, i, *byte);
    }
    set_byte(rt, &mut bytes, 8, 1);
    set_byte(rt, &mut bytes, 12, threads);
    set_byte(rt, &mut bytes, 16, shards);
    set_byte(rt, &mut bytes, 20, 16);
    for word in words {
        set_word(rt, &mut bytes, *word);
    }
    set_word(rt, &mut bytes, last);
    match read_image(alloc, bytes.as_slice()) {
        Ok(image) => Ok(image),
        Err(refusal) => {
            assert!(rt; refusal == ReadImageRefusal::OutOfMemory);
            Err(AllocError)
        }
    }
}

/// Writes one byte.
fn set_byte(rt: &impl Abort, bytes: &mut Vec<u8>, at: usize, byte: u8) {
    assert!(rt; at < bytes.len());
    bytes[at] = byte;
}

/// Writes one word, little-endian.
fn set_word(rt: &impl Abort, bytes: &mut Vec<u8>, word: Word) {
    let (line, number, value) = word;
    assert!(rt; line < 64 && number < 8);
    for (i, byte) in value.to_le_bytes().iter().enumerate() {
        set_byte(rt, bytes, 24 + 64 * line + 8 * number + i, *byte);
    }
}

/// The fault of an image; `None` where it has none.
fn fault_of(alloc: Global, image: &Image) -> Result<Option<ImageFault>, AllocError>
    requires { IsWhole image.now }
{
    match check_image(alloc, image) {
        Ok(_recovered) => Ok(None),
        Err(ReadImageRefusal::Fault(fault)) => Ok(Some(fault)),
        Err(ReadImageRefusal::OutOfMemory) => Err(AllocError),
    }
}

/// What an image recovers to.
fn recovered_of(rt: &impl Abort, alloc: Global, image: &Image) -> Result<Recovered, AllocError>
    requires { IsWhole image.now }
{
    match check_image(alloc, image) {
        Ok(recovered) => Ok(recovered),
        Err(refusal) => {
            assert!(rt; refusal == ReadImageRefusal::OutOfMemory);
            Err(AllocError)
        }
    }
}

/// The fault of the first image with this word in place of its own.
fn put_fault(rt: &impl Abort, alloc: Global, word: Word) -> Result<Option<ImageFault>, AllocError> {
    fault_of(alloc, &image_with(rt, alloc, 1, 1, &PUT, word)?)
}

/// The fault of the second image with this word in place of its own.
fn many_fault(
    rt: &impl Abort,
    alloc: Global,
    word: Word,
) -> Result<Option<ImageFault>, AllocError> {
    fault_of(alloc, &image_with(rt, alloc, 2, 2, &MANY, word)?)
}

#[test]
fn first_faults_of_a_put(rt: HostRuntime) -> Result<(), Fail> {
    let alloc = rt.alloc();
    let room = 0;
    for (word, fault) in [
        ((9, 6, 3), Some(ImageFault::TagAhead { room, line: 9 })),
        ((9, 2, 9), Some(ImageFault::Chain { room })),
        ((33, 0, 0), Some(ImageFault::Epoch)),
        ((33, 0, 1 << 32), Some(ImageFault::Epoch)),
        ((0, 1, 17), Some(ImageFault::Header { room })),
        ((0, 2, 2), Some(ImageFault::Header { room })),
        ((9, 0, 6), Some(ImageFault::Chain { room })),
        ((0, 0, 9), Some(ImageFault::FreeList { room })),
        ((0, 2, 0), Some(ImageFault::Count { room })),
        ((17, 1, 2), Some(ImageFault::Ends { room: 1 })),
        ((32, 6, 3), Some(ImageFault::TagAhead { room: 2, line: 0 })),
        ((33, 6, 3), None),
        ((1, 2, 5), None),
    ] {
        assert_eq!(rt; put_fault(&rt, alloc, word)?, fault);
    }
    Ok(())
}

#[test]
fn first_faults_of_many(rt: HostRuntime) -> Result<(), Fail> {
    let alloc = rt.alloc();
    for (word, fault) in [
        ((26, 0, 19), Some(ImageFault::Chain { room: 1 })),
        ((26, 0, 4), Some(ImageFault::Chain { room: 1 })),
        ((26, 2, 9), Some(ImageFault::Chain { room: 1 })),
        ((18, 0, 1 << 40), Some(ImageFault::Chain { room: 1 })),
        ((27, 0, 12), Some(ImageFault::FreeList { room: 1 })),
        ((27, 0, 10), Some(ImageFault::FreeList { room: 1 })),
        ((16, 0, 12), Some(ImageFault::Header { room: 1 })),
        ((16, 0, 0), Some(ImageFault::Count { room: 1 })),
        ((35, 1, 4), Some(ImageFault::Chain { room: 2 })),
        ((33, 1, 2), Some(ImageFault::Ends { room: 2 })),
        ((34, 1, 0), Some(ImageFault::Ends { room: 2 })),
        ((32, 2, 2), Some(ImageFault::Count { room: 2 })),
        ((49, 6, 8), Some(ImageFault::TagAhead { room: 4, line: 0 })),
    ] {
        assert_eq!(rt; many_fault(&rt, alloc, word)?, fault);
    }
    Ok(())
}

#[test]
fn states_of_a_put(rt: HostRuntime) -> Result<(), Fail> {
    let alloc = rt.alloc();
    for (epoch, position, pair) in [
        (2, 1, Some(Pair { key: 5, value: 7 })),
        (1, 0, None),
        (4278190080, 1, Some(Pair { key: 5, value: 7 })),
    ] {
        let image = image_with(&rt, alloc, 1, 1, &PUT, (33, 0, epoch))?;
        let found = recovered_of(&rt, alloc, &image)?;
        assert_eq!(rt; u64::from(found.epoch), epoch);
        assert_eq!(rt; found.positions.as_slice(), [position].as_slice());
        assert_eq!(rt; found.pairs.as_slice().get(0).copied(), pair);
        assert_eq!(rt; found.pairs.len(), if pair.is_some() { 1 } else { 0 });
        assert_eq!(rt; found.items.len(), 0);
    }
    Ok(())
}

#[test]
fn state_of_many(rt: HostRuntime) -> Result<(), Fail> {
    let alloc = rt.alloc();
    let image = image_with(&rt, alloc, 2, 2, &MANY, (50, 0, 7))?;
    let found = recovered_of(&rt, alloc, &image)?;
    assert_eq!(rt; found.epoch, 7);
    assert_eq!(rt; found.positions.as_slice(), [6, 9].as_slice());
    assert_eq!(rt; found.items.as_slice(), [70, 71, 72].as_slice());
    let pairs = [
        Pair { key: 3, value: 30 },
        Pair { key: 4, value: 40 },
        Pair {
            key: 10,
            value: 100,
        },
        Pair {
            key: 19,
            value: 190,
        },
    ];
    assert_eq!(rt; found.pairs.as_slice(), pairs.as_slice());
    Ok(())
}

/// Whether a restore may go on.
fn may_restore(state: CellState) -> bool
    ensures { IsTrue result → MayRestore state }
{
    matches!(state, CellState::Torn(_) | CellState::Saved(_))
}

/// Makes sure that nothing is pending on a bank, and that no tag is above the epoch.
fn settle(rt: &impl Abort, bank: &Bank, epoch: u32)
    ensures { AreSettled epoch bank.now.lines }
{
    for line in 0..bank.lines() {
        assert!(rt; bank.pending(line) == 0 && bank.base(line)[6] <= u64::from(epoch));
    }
}

/// The triple at epoch 1 of what a cut leaves of line 0 that keeps its first pending stores.
fn header_left(rt: &impl Abort, bank: &Bank, kept: u32) -> [u64; 3] {
    assert!(rt; bank.lines() == 16 && kept <= bank.pending(0));
    let mut words = bank.base(0);
    for k in 0..kept {
        let (word, value) = bank.pending_at(0, k);
        assert!(rt; word < 8);
        words[word as usize] = value;
    }
    if words[6] == 1 {
        [words[3], words[4], words[5]]
    } else {
        [words[0], words[1], words[2]]
    }
}

/// Makes sure that every cut leaves of line 0 the triple with which the room was formatted.
fn keeps_header(rt: &impl Abort, bank: &Bank) {
    assert!(rt; bank.lines() == 16);
    for kept in 0..=bank.pending(0) {
        assert!(rt; header_left(rt, bank, kept) == [0, 9, 0]);
    }
}

/// The map room of the put that was cut, as cells that a restore is to put back.
fn cut_room(rt: &impl Abort, alloc: Global) -> Result<CellBank, AllocError> {
    let image = image_with(rt, alloc, 1, 1, &CUT_PUT, (33, 0, 1))?;
    let mut banks = image_memory(alloc, image)?.into_banks();
    assert!(rt; banks.len() == 4);
    let bank = banks.remove(0);
    settle(rt, &bank, 1);
    CellBank::torn(alloc, bank, 1)
}

#[test]
fn a_put_that_was_cut_is_restored(rt: HostRuntime) -> Result<(), Fail> {
    let mut cells = cut_room(&rt, rt.alloc())?;
    for step in [
        RestoreStep::Stored,
        RestoreStep::Stored,
        RestoreStep::Stored,
        RestoreStep::Wrote,
        RestoreStep::Fenced,
        RestoreStep::Finished,
    ] {
        keeps_header(&rt, cells.bank());
        assert!(rt; may_restore(cells.state()));
        assert!(rt; cells.restore_next() == step);
    }
    keeps_header(&rt, cells.bank());
    let bank = cells.into_bank();
    assert!(rt; bank.lines() == 16);
    assert_eq!(rt; bank.base(0), [0, 9, 0, 0, 9, 0, 1, 0]);
    Ok(())
}
