//! Three images by hand, put back event by event, on one thread and one shard of 16 lines. The words, the counts and the order
//! were worked out on paper.
//!
//! Where a cell is tagged with the image's epoch its backup counts, whatever its record is. The helpers begin a recovery anew
//! for each number of events, since the memory under it is seen only once it is given back.

ghost use Rattle.seq_object.specs.Sizes.{sizes_of};
ghost use Rattle.room_model.specs.Image.{HasRooms};
ghost use Rattle.power_cut.specs.Image.{IsWhole};

use crate::{RecoverStep, Recovery};
use image_check::check_image;
use line_memory::Memory;
use power_cut::{Image, cut, image_memory, read_image};
use room_yard::World;
use seq_object::Settings;
use std::alloc::Global;
use std::process::Abort;
use store_order::Choice;

const SETTINGS: Settings = Settings {
    threads: 1,
    shards: 1,
    lines: 16,
    every: 1,
};

/// A word of an image: the number of its line through all rooms, its number in the line, and its value. Lines 0 to 15 are the
/// map room, 16 to 31 the queue room, 32 the thread's line and 33 the super room's.
type Word = (usize, usize, u64);

/// The words of formatted memory that are not 0.
const FORMATTED: [Word; 3] = [(0, 1, 9), (16, 1, 2), (33, 0, 1)];

/// What a recovery makes of them.
const FORMATTED_BEHIND: [Word; 3] = [(0, 1, 9), (16, 1, 2), (33, 0, 2)];

/// The words of an image in which the map room's header was written in epoch 1, its count to 1.
const ONE_TORN: [Word; 6] = [
    (0, 1, 9),
    (0, 2, 1),
    (0, 4, 9),
    (0, 6, 1),
    (16, 1, 2),
    (33, 0, 1),
];

/// What a recovery makes of them.
const ONE_TORN_BEHIND: [Word; 5] = [(0, 1, 9), (0, 4, 9), (0, 6, 1), (16, 1, 2), (33, 0, 2)];

/// The words of what a cut leaves in the first epoch behind a put and the write of the thread's position, where the map room's
/// header and the thread's line keep all stores, and the others none.
const TWO_TORN: [Word; 8] = [
    (0, 1, 10),
    (0, 2, 1),
    (0, 4, 9),
    (0, 6, 1),
    (16, 1, 2),
    (32, 0, 1),
    (32, 6, 1),
    (33, 0, 1),
];

/// The same, once the header was restored and the thread's line was not.
const TWO_TORN_CUT: [Word; 7] = [
    (0, 1, 9),
    (0, 4, 9),
    (0, 6, 1),
    (16, 1, 2),
    (32, 0, 1),
    (32, 6, 1),
    (33, 0, 1),
];

/// What a recovery makes of either.
const TWO_TORN_BEHIND: [Word; 6] = [
    (0, 1, 9),
    (0, 4, 9),
    (0, 6, 1),
    (16, 1, 2),
    (32, 6, 1),
    (33, 0, 2),
];

/// What is seen of the first line of a room: the words that memory holds, the loads of words 0 to 2, and how many stores are
/// pending and asked for.
type Seen = ([u64; 8], [u64; 3], u32, u32);

/// The super room's line behind so many events of the epoch write.
const EPOCH: [Seen; 4] = [
    ([1, 0, 0, 0, 0, 0, 0, 0], [1, 0, 0], 0, 0),
    ([1, 0, 0, 0, 0, 0, 0, 0], [2, 0, 0], 1, 0),
    ([1, 0, 0, 0, 0, 0, 0, 0], [2, 0, 0], 1, 1),
    ([2, 0, 0, 0, 0, 0, 0, 0], [2, 0, 0], 0, 0),
];

/// The header of the map room, which no restore works on.
const HEADER: [Seen; 1] = [([0, 9, 0, 0, 0, 0, 0, 0], [0, 9, 0], 0, 0)];

/// The header of the queue room, which no restore works on.
const QUEUE: Seen = ([0, 2, 0, 0, 0, 0, 0, 0], [0, 2, 0], 0, 0);

/// The thread's line, which no restore works on.
const THREAD: [Seen; 1] = [([0, 0, 0, 0, 0, 0, 0, 0], [0, 0, 0], 0, 0)];

/// The header of the second image behind so many events of the map room's restore.
const COUNTED_HEADER: [Seen; 6] = [
    ([0, 9, 1, 0, 9, 0, 1, 0], [0, 9, 1], 0, 0),
    ([0, 9, 1, 0, 9, 0, 1, 0], [0, 9, 1], 1, 0),
    ([0, 9, 1, 0, 9, 0, 1, 0], [0, 9, 1], 2, 0),
    ([0, 9, 1, 0, 9, 0, 1, 0], [0, 9, 0], 3, 0),
    ([0, 9, 1, 0, 9, 0, 1, 0], [0, 9, 0], 3, 3),
    ([0, 9, 0, 0, 9, 0, 1, 0], [0, 9, 0], 0, 0),
];

/// The header of the third image behind so many events of the map room's restore.
const PUT_HEADER: [Seen; 6] = [
    ([0, 10, 1, 0, 9, 0, 1, 0], [0, 10, 1], 0, 0),
    ([0, 10, 1, 0, 9, 0, 1, 0], [0, 10, 1], 1, 0),
    ([0, 10, 1, 0, 9, 0, 1, 0], [0, 9, 1], 2, 0),
    ([0, 10, 1, 0, 9, 0, 1, 0], [0, 9, 0], 3, 0),
    ([0, 10, 1, 0, 9, 0, 1, 0], [0, 9, 0], 3, 3),
    ([0, 9, 0, 0, 9, 0, 1, 0], [0, 9, 0], 0, 0),
];

/// The header that was restored, behind so many events of its restore done again.
const RESTORED_HEADER: [Seen; 6] = [
    ([0, 9, 0, 0, 9, 0, 1, 0], [0, 9, 0], 0, 0),
    ([0, 9, 0, 0, 9, 0, 1, 0], [0, 9, 0], 1, 0),
    ([0, 9, 0, 0, 9, 0, 1, 0], [0, 9, 0], 2, 0),
    ([0, 9, 0, 0, 9, 0, 1, 0], [0, 9, 0], 3, 0),
    ([0, 9, 0, 0, 9, 0, 1, 0], [0, 9, 0], 3, 3),
    ([0, 9, 0, 0, 9, 0, 1, 0], [0, 9, 0], 0, 0),
];

/// The thread's line of the third image behind so many events of its restore.
const MOVED_THREAD: [Seen; 6] = [
    ([1, 0, 0, 0, 0, 0, 1, 0], [1, 0, 0], 0, 0),
    ([1, 0, 0, 0, 0, 0, 1, 0], [0, 0, 0], 1, 0),
    ([1, 0, 0, 0, 0, 0, 1, 0], [0, 0, 0], 2, 0),
    ([1, 0, 0, 0, 0, 0, 1, 0], [0, 0, 0], 3, 0),
    ([1, 0, 0, 0, 0, 0, 1, 0], [0, 0, 0], 3, 3),
    ([0, 0, 0, 0, 0, 0, 1, 0], [0, 0, 0], 0, 0),
];

/// Behind an event: how many events the map room, the thread's room and the super room have had, and the write-backs so far.
type Row = (usize, usize, usize, u64);

const FORMATTED_ROWS: [Row; 3] = [(0, 0, 1, 0), (0, 0, 2, 1), (0, 0, 3, 1)];

const ONE_TORN_ROWS: [Row; 8] = [
    (1, 0, 0, 0),
    (2, 0, 0, 0),
    (3, 0, 0, 0),
    (4, 0, 0, 1),
    (5, 0, 0, 1),
    (5, 0, 1, 1),
    (5, 0, 2, 2),
    (5, 0, 3, 2),
];

const TWO_TORN_ROWS: [Row; 13] = [
    (1, 0, 0, 0),
    (2, 0, 0, 0),
    (3, 0, 0, 0),
    (4, 0, 0, 1),
    (5, 0, 0, 1),
    (5, 1, 0, 1),
    (5, 2, 0, 1),
    (5, 3, 0, 1),
    (5, 4, 0, 2),
    (5, 5, 0, 2),
    (5, 5, 1, 2),
    (5, 5, 2, 3),
    (5, 5, 3, 3),
];

/// Writes one byte.
fn set_byte(rt: &impl Abort, bytes: &mut Vec<u8>, at: usize, byte: u8) {
    assert!(rt; at < bytes.len());
    bytes[at] = byte;
}

/// Writes one word, little-endian.
fn set_word(rt: &impl Abort, bytes: &mut Vec<u8>, word: Word) {
    let (line, number, value) = word;
    assert!(rt; line < 34 && number < 8);
    for (i, byte) in value.to_le_bytes().iter().enumerate() {
        set_byte(rt, bytes, 24 + 64 * line + 8 * number + i, *byte);
    }
}

/// The image with these words; its other words are 0.
fn image_with(rt: &impl Abort, alloc: Global, words: &[Word]) -> Image
    ensures { IsWhole result }
{
    let mut bytes = vec![in alloc; 0u8; 24 + 64 * 34].expect(rt, "memory");
    for (i, byte) in b"RESPCTIM".iter().enumerate() {
        set_byte(rt, &mut bytes, i, *byte);
    }
    for (at, byte) in [(8, 1), (12, 1), (16, 1), (20, 16)] {
        set_byte(rt, &mut bytes, at, byte);
    }
    for word in words {
        set_word(rt, &mut bytes, *word);
    }
    read_image(alloc, bytes.as_slice()).expect(rt, "an image")
}

/// The recovery of an image of epoch 1, of which it is made sure that it is lawful.
fn recovery_of(rt: &impl Abort, alloc: Global, image: Image) -> Recovery
    requires { IsWhole image }
{
    let found = check_image(alloc, &image).expect(rt, "a lawful image");
    assert!(rt; image.sizes() == SETTINGS.sizes() && found.epoch == 1);
    let memory = image_memory(alloc, image).expect(rt, "memory");
    Recovery::of(alloc, memory, SETTINGS).expect(rt, "memory")
}

/// Does the next event, of which it is made sure that there is one.
fn step(rt: &impl Abort, recovery: &mut Recovery) -> RecoverStep {
    assert!(rt; !recovery.is_finished());
    recovery.step()
}

/// A recovery behind so many more events.
fn led_on(rt: &impl Abort, recovery: Recovery, events: usize) -> Recovery {
    let mut recovery = recovery;
    for _event in 0..events {
        let _said = step(rt, &mut recovery);
    }
    recovery
}

/// The recovery of the image with these words, behind so many events.
fn behind(rt: &impl Abort, alloc: Global, words: &[Word], events: usize) -> Recovery {
    led_on(
        rt,
        recovery_of(rt, alloc, image_with(rt, alloc, words)),
        events,
    )
}

/// What is seen of the first line of a room.
fn seen(rt: &impl Abort, memory: &Memory, room: u32) -> Seen {
    assert!(rt; room < memory.rooms());
    let bank = memory.bank(room);
    assert!(rt; bank.lines() > 0);
    let loads = [bank.load(0, 0), bank.load(0, 1), bank.load(0, 2)];
    (bank.base(0), loads, bank.pending(0), bank.asked(0))
}

/// Makes sure that a memory has the rooms of the settings, and each room its lines.
fn fit(rt: &impl Abort, memory: &Memory)
    ensures { HasRooms (sizes_of SETTINGS) memory.now }
{
    assert!(rt; memory.rooms() == 4);
    for room in 0..4 {
        assert!(rt; memory.bank(room).lines() == SETTINGS.sizes().lines_of(room));
    }
}

/// What a power cut leaves of a memory where no line keeps a pending store.
fn left(rt: &impl Abort, alloc: Global, memory: &Memory) -> Image
    ensures { IsWhole result }
{
    fit(rt, memory);
    cut(alloc, memory, &SETTINGS, &Choice::Nothing).expect(rt, "memory")
}

/// Compares what is seen of a memory with what the map room's header and the thread's line are behind so many of their events.
/// Nothing is ever done in the queue room.
fn compare(rt: &impl Abort, memory: &Memory, header: &[Seen], thread: &[Seen], row: Row) {
    let (of_header, of_thread, of_epoch, write_backs) = row;
    assert_eq!(rt; Some(seen(rt, memory, 0)), header.get(of_header).copied());
    assert_eq!(rt; seen(rt, memory, 1), QUEUE);
    assert_eq!(rt; Some(seen(rt, memory, 2)), thread.get(of_thread).copied());
    assert_eq!(rt; Some(seen(rt, memory, 3)), EPOCH.get(of_epoch).copied());
    assert_eq!(rt; memory.write_backs(), write_backs);
}

/// Puts the image with these words back and compares what is seen behind each event with its row. The last event, and no
/// other, finishes.
fn put_back(
    rt: &impl Abort,
    alloc: Global,
    words: &[Word],
    header: &[Seen],
    thread: &[Seen],
    rows: &[Row],
) {
    for (before, row) in rows.iter().enumerate() {
        let mut recovery = behind(rt, alloc, words, before);
        let is_last = before == rows.len() - 1;
        let finished = step(rt, &mut recovery) == RecoverStep::Finished;
        assert_eq!(rt; (before, finished), (before, is_last));
        assert_eq!(rt; (before, recovery.is_finished()), (before, is_last));
        assert_eq!(rt; recovery.epoch(), if row.2 == 0 { 1 } else { 2 });
        compare(rt, &recovery.into_memory(), header, thread, *row);
    }
}

/// Makes sure that a power cut leaves this image of a recovery where no line keeps a pending store.
fn leaves(rt: &impl Abort, alloc: Global, recovery: Recovery, words: &[Word]) {
    let image = left(rt, alloc, &recovery.into_memory());
    assert!(rt; image == image_with(rt, alloc, words));
}

/// The world with which a life opens whose one script has so many commands, on the image with these words, put back by so many
/// events.
fn world_of(rt: &impl Abort, alloc: Global, words: &[Word], events: usize, commands: u32) -> World {
    let recovery = behind(rt, alloc, words, events);
    assert!(rt; recovery.is_finished() && recovery.settings().threads == 1);
    recovery.into_world(&[commands])
}

/// Compares a world with its arrival word; it is as no thread has moved in it.
fn opens_with(rt: &impl Abort, world: &World, arrival: u64) {
    assert_eq!(rt; world.arrival(), arrival);
    assert_eq!(rt; world.clock(), 0);
    assert_eq!(rt; world.held().len(), 0);
    assert_eq!(rt; world.rooms().len(), 4);
}

#[test]
fn a_formatted_image(rt: HostRuntime) {
    put_back(
        &rt,
        rt.alloc(),
        &FORMATTED,
        &HEADER,
        &THREAD,
        &FORMATTED_ROWS,
    );
    leaves(
        &rt,
        rt.alloc(),
        behind(&rt, rt.alloc(), &FORMATTED, 3),
        &FORMATTED_BEHIND,
    );
}

#[test]
fn worlds_of_a_formatted_image(rt: HostRuntime) {
    for (commands, arrival) in [(1, 8_589_934_593), (0, 8_590_065_665)] {
        let world = world_of(&rt, rt.alloc(), &FORMATTED, 3, commands);
        opens_with(&rt, &world, arrival);
    }
}

#[test]
fn an_image_with_a_torn_cell(rt: HostRuntime) {
    put_back(
        &rt,
        rt.alloc(),
        &ONE_TORN,
        &COUNTED_HEADER,
        &THREAD,
        &ONE_TORN_ROWS,
    );
    leaves(
        &rt,
        rt.alloc(),
        behind(&rt, rt.alloc(), &ONE_TORN, 8),
        &ONE_TORN_BEHIND,
    );
}

#[test]
fn an_image_with_two_torn_rooms(rt: HostRuntime) {
    put_back(
        &rt,
        rt.alloc(),
        &TWO_TORN,
        &PUT_HEADER,
        &MOVED_THREAD,
        &TWO_TORN_ROWS,
    );
    leaves(
        &rt,
        rt.alloc(),
        behind(&rt, rt.alloc(), &TWO_TORN, 13),
        &TWO_TORN_BEHIND,
    );
}

/// The thread's position is 0 again, so its one command is not yet carried out.
#[test]
fn the_world_of_two_torn_rooms(rt: HostRuntime) {
    let world = world_of(&rt, rt.alloc(), &TWO_TORN, 13, 1);
    opens_with(&rt, &world, 8_589_934_593);
}

/// What a cut in the restore of the second room leaves has the tags of both, so all is to be done again.
#[test]
fn a_recovery_that_is_cut(rt: HostRuntime) {
    let alloc = rt.alloc();
    let memory = behind(&rt, alloc, &TWO_TORN, 7).into_memory();
    let image = left(&rt, alloc, &memory);
    assert!(rt; image == image_with(&rt, alloc, &TWO_TORN_CUT));
    let again = led_on(&rt, recovery_of(&rt, alloc, image), 13);
    assert!(rt; again.is_finished() && again.epoch() == 2);
    leaves(&rt, alloc, again, &TWO_TORN_BEHIND);
}

#[test]
fn an_image_with_two_torn_rooms_of_which_one_was_restored(rt: HostRuntime) {
    put_back(
        &rt,
        rt.alloc(),
        &TWO_TORN_CUT,
        &RESTORED_HEADER,
        &MOVED_THREAD,
        &TWO_TORN_ROWS,
    );
}
