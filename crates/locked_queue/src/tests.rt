//! A queue room of sixteen lines, behind the one map room of its memory, by hand: commands are carried out, epochs are closed
//! and one is undone. The replies, the stores, the items and the words were worked out on paper.

ghost use Rattle.std.specs.Prelude.{◌≡◌, ◌<◌, ◌+◌, length, IsTrue};
ghost use Rattle.seq_object.specs.Sizes.{sizes_of};
ghost use Rattle.seq_object.specs.Object.{room_of};
ghost use Rattle.line_memory.specs.Line.{bank_load};
ghost use Rattle.room_model.specs.Chains.{HasSameRecords};
ghost use Rattle.room_model.specs.MapRoom.{live_layout};
ghost use Rattle.room_model.specs.Formatted.{formatted, first_node};
ghost use Rattle.incll_var.specs.Cells.{IsCellBank, IsRunning, MayRestore, AreSettled, epoch_of};
ghost use Rattle.command_room.specs.Room.{memory_words_of};
ghost use Rattle.locked_queue.specs.Tests.{IsIdle, HasFinished, IsQueueOf};

use crate::QueueRoom;
use command_room::RunsCommands as _;
use formatting::format_room;
use incll_var::{CellBank, CellState, RestoreStep};
use line_memory::Bank;
use planned_cells::CellRoom;
use seq_object::{Command, Entry, Noted, Reply, Settings};
use std::alloc::Global;
use std::process::Abort;

const SETTINGS: Settings = Settings {
    threads: 1,
    shards: 1,
    lines: 16,
    every: 1,
};

/// A command, its reply where it has one, and how many stores it takes.
type Row = (Command, Option<Reply>, u32);

/// Makes sure that each line of a bank is settled at this epoch.
fn settled(rt: &impl Abort, bank: &Bank, epoch: u32)
    ensures { AreSettled epoch bank.now.lines }
{
    for line in 0..bank.lines() {
        assert!(rt; bank.pending(line) == 0 && bank.base(line)[6] <= u64::from(epoch));
    }
}

/// The cells of the queue room of formatted memory, saved before the first epoch.
fn formatted_cells(rt: &impl Abort, alloc: Global) -> CellBank
    ensures state { result.state ≡ CellState.Saved 0 }
    ensures cells { IsCellBank result }
    ensures lines { length result.bank.lines ≡ 16 }
    ensures loads { HasSameRecords (bank_load result.bank) (formatted (first_node live_layout (sizes_of SETTINGS) 1)) }
{
    let bank = format_room(alloc, SETTINGS.sizes(), 1).expect(rt, "memory");
    CellBank::clean(alloc, bank, 0).expect(rt, "memory")
}

/// The empty queue, entered in epoch 1.
fn queue_room(rt: &impl Abort, alloc: Global) -> QueueRoom
    ensures state { result.cells.state ≡ CellState.Running 1 }
    ensures idle { IsIdle SETTINGS result }
{
    let cells = formatted_cells(rt, alloc);
    let mut room = QueueRoom::of(alloc, cells, SETTINGS);
    room.enter(1);
    room
}

/// Whether this is a command of the queue.
fn is_of_queue(command: Command) -> bool
    ensures { IsTrue result → room_of (sizes_of SETTINGS) command ≡ 1 }
{
    match command {
        Command::Enq(_) | Command::Deq | Command::Take => true,
        _ => false,
    }
}

/// Makes the stores that are left, and says how many they were.
fn finish(room: &mut QueueRoom) -> u32
    ensures { HasFinished room.old room.new }
{
    let stores = room.left();
    while room.left() > 0 {
        room.step();
    }
    stores
}

/// Carries out a command, and gives its reply, where it has one, and the number of its stores.
fn carry_out(rt: &impl Abort, room: &mut QueueRoom, command: Command) -> (Option<Reply>, u32)
    requires running { IsRunning room.old.cells.state }
    requires idle { IsIdle SETTINGS room.old }
    ensures state { room.new.cells.state ≡ room.old.cells.state }
    ensures idle { IsIdle SETTINGS room.new }
    ensures in_memory { memory_words_of room.new ≡ memory_words_of room.old }
{
    assert!(rt; is_of_queue(command));
    let ticket = room.history().len() as u64;
    let Some(reply) = room.begin(command).expect(rt, "memory") else {
        return (None, room.left());
    };
    let stores = finish(room);
    let entry = Entry {
        thread: 0,
        index: 0,
        command,
        reply,
    };
    room.note(ticket, entry);
    (Some(reply), stores)
}

/// Carries out these commands, and compares their replies and the numbers of their stores.
fn carry_out_all(rt: &impl Abort, room: &mut QueueRoom, rows: &[Row])
    requires running { IsRunning room.old.cells.state }
    requires idle { IsIdle SETTINGS room.old }
    ensures state { room.new.cells.state ≡ room.old.cells.state }
    ensures idle { IsIdle SETTINGS room.new }
    ensures in_memory { memory_words_of room.new ≡ memory_words_of room.old }
{
    for &(command, reply, stores) in rows {
        assert!(rt; carry_out(rt, room, command) == (reply, stores));
    }
}

/// The queue in epoch 1, behind these commands.
fn queue_behind(rt: &impl Abort, alloc: Global, rows: &[Row]) -> QueueRoom
    ensures state { result.cells.state ≡ CellState.Running 1 }
    ensures idle { IsIdle SETTINGS result }
{
    let mut room = queue_room(rt, alloc);
    carry_out_all(rt, &mut room, rows);
    room
}

/// Closes this epoch, and says how many lines were stored to in it.
fn close(room: &mut QueueRoom, epoch: u32) -> u32
    requires state { room.old.cells.state ≡ CellState.Running epoch }
    requires idle { IsIdle SETTINGS room.old }
    ensures state { room.new.cells.state ≡ CellState.Saved epoch }
    ensures idle { IsIdle SETTINGS room.new }
    ensures in_memory { memory_words_of room.new ≡ memory_words_of room.old }
{
    let count = room.close_begin();
    if count == 0 {
        return 0;
    }
    let mut more = true;
    while more {
        more = room.close_next();
    }
    room.close_fence();
    count
}

/// Enters the epoch behind the one that is saved.
fn next_epoch(room: &mut QueueRoom, saved: u32, epoch: u32)
    requires state { room.old.cells.state ≡ CellState.Saved saved }
    requires later { saved < epoch }
    requires idle { IsIdle SETTINGS room.old }
    ensures state { room.new.cells.state ≡ CellState.Running epoch }
    ensures idle { IsIdle SETTINGS room.new }
    ensures held { IsQueueOf SETTINGS (memory_words_of room.new) }
{
    let _history = room.history();
    room.enter(epoch);
}

/// The queue with 40 and 50 in it, which are saved in epoch 1.
fn saved_queue(rt: &impl Abort, alloc: Global) -> QueueRoom
    ensures state { result.cells.state ≡ CellState.Saved 1 }
    ensures idle { IsIdle SETTINGS result }
{
    let rows = [
        (Command::Enq(40), Some(Reply::Done), 18),
        (Command::Enq(50), Some(Reply::Done), 10),
    ];
    let mut room = queue_behind(rt, alloc, &rows);
    assert!(rt; close(&mut room, 1) == 4);
    room
}

/// Carries out these commands in the epoch behind the one that is saved, and closes it; as many lines were stored to.
fn lead(rt: &impl Abort, room: &mut QueueRoom, epoch: u32, rows: &[Row], lines: u32)
    requires state { room.old.cells.state ≡ CellState.Saved epoch }
    requires later { epoch < 100 }
    requires idle { IsIdle SETTINGS room.old }
    ensures state { room.new.cells.state ≡ CellState.Saved (epoch + 1) }
    ensures idle { IsIdle SETTINGS room.new }
    ensures held { IsQueueOf SETTINGS (memory_words_of room.new) }
{
    next_epoch(room, epoch, epoch + 1);
    carry_out_all(rt, room, rows);
    assert!(rt; close(room, epoch + 1) == lines);
}

/// What a cut leaves of the room behind the closing of this epoch, where memory still has the epoch: the room, torn.
fn cut_room(rt: &impl Abort, alloc: Global, room: QueueRoom, epoch: u32) -> QueueRoom
    requires state { room.cells.state ≡ CellState.Saved epoch }
    requires idle { IsIdle SETTINGS room }
    requires held { IsQueueOf SETTINGS (memory_words_of room) }
    ensures state { result.cells.state ≡ CellState.Torn epoch }
    ensures idle { IsIdle SETTINGS result }
{
    let bank = room.into_bank();
    settled(rt, &bank, epoch);
    assert!(rt; bank.lines() == 16);
    let cells = CellBank::torn(alloc, bank, epoch).expect(rt, "memory");
    QueueRoom::of(alloc, cells, SETTINGS)
}

/// Goes on with a restore by so many events, which all do this step.
fn restore(rt: &impl Abort, room: &mut QueueRoom, step: RestoreStep, events: u32)
    requires may { MayRestore room.old.cells.state }
    requires idle { IsIdle SETTINGS room.old }
    ensures may { MayRestore room.new.cells.state }
    ensures epoch { epoch_of room.new.cells.state ≡ epoch_of room.old.cells.state }
    ensures idle { IsIdle SETTINGS room.new }
{
    for _ in 0..events {
        assert!(rt; room.restore_next() == step);
    }
}

/// Ends a restore in which no event is left.
fn end_restore(rt: &impl Abort, room: &mut QueueRoom, epoch: u32)
    requires may { MayRestore room.old.cells.state }
    requires epoch { epoch_of room.old.cells.state ≡ epoch }
    requires idle { IsIdle SETTINGS room.old }
    ensures state { room.new.cells.state ≡ CellState.Saved epoch }
    ensures idle { IsIdle SETTINGS room.new }
{
    assert!(rt; is_finished(room.restore_next()));
}

/// Whether a restore is finished.
fn is_finished(step: RestoreStep) -> bool
    ensures { IsTrue result → step ≡ RestoreStep.Finished }
{
    matches!(step, RestoreStep::Finished)
}

/// Whether these are the items of the queue, from front to back.
fn has_items(rt: &impl Abort, alloc: Global, room: &QueueRoom, items: &[u64]) -> bool {
    let held = room.entries(alloc).expect(rt, "memory");
    held.as_slice() == items
}

/// The bank under the room, of sixteen lines.
fn bank_of(rt: &impl Abort, room: QueueRoom) -> Bank
    ensures { length result.lines ≡ 16 }
{
    let bank = room.into_bank();
    assert!(rt; bank.lines() == 16);
    bank
}

/// The record of a line by loads.
fn record(rt: &impl Abort, bank: &Bank, line: u32) -> [u64; 3] {
    assert!(rt; line < bank.lines());
    [bank.load(line, 0), bank.load(line, 1), bank.load(line, 2)]
}

/// Whether these stores, each a word and a value, are pending on the line, in this order.
fn has_pending(rt: &impl Abort, bank: &Bank, line: u32, stores: &[(u32, u64)]) -> bool {
    assert!(rt; line < bank.lines());
    let mut place = 0;
    for &store in stores {
        if place >= bank.pending(line) || bank.pending_at(line, place) != store {
            return false;
        }
        place += 1;
    }
    place == bank.pending(line)
}

/// The entry of a command of the one thread.
fn noted(ticket: u64, command: Command, reply: Reply) -> Noted {
    Noted {
        ticket,
        entry: Entry {
            thread: 0,
            index: 0,
            command,
            reply,
        },
    }
}

#[test]
fn the_stores_of_two_items(rt: HostRuntime) {
    let rows = [
        (Command::Enq(40), Some(Reply::Done), 18),
        (Command::Enq(50), Some(Reply::Done), 10),
    ];
    let room = queue_behind(&rt, rt.alloc(), &rows);
    let bank = bank_of(&rt, room);
    let header = [
        (3, 0),
        (4, 2),
        (5, 0),
        (6, 1),
        (1, 3),
        (2, 1),
        (1, 4),
        (2, 2),
    ];
    let ends = [(3, 0), (4, 0), (5, 0), (6, 1), (0, 2), (1, 2), (1, 3)];
    let first = [(3, 0), (4, 0), (5, 0), (6, 1), (0, 40), (1, 0), (1, 3)];
    let second = [(3, 0), (4, 0), (5, 0), (6, 1), (0, 50), (1, 0)];
    assert!(rt; has_pending(&rt, &bank, 0, &header));
    assert!(rt; has_pending(&rt, &bank, 1, &ends));
    assert!(rt; has_pending(&rt, &bank, 2, &first));
    assert!(rt; has_pending(&rt, &bank, 3, &second));
}

#[test]
fn the_first_of_two_items_off(rt: HostRuntime) {
    let rows = [
        (Command::Enq(40), Some(Reply::Done), 18),
        (Command::Enq(50), Some(Reply::Done), 10),
        (Command::Deq, Some(Reply::Found(40)), 4),
    ];
    let room = queue_behind(&rt, rt.alloc(), &rows);
    let bank = bank_of(&rt, room);
    assert_eq!(rt; record(&rt, &bank, 0), [2, 4, 1]);
    assert_eq!(rt; record(&rt, &bank, 1), [3, 3, 0]);
    assert_eq!(rt; record(&rt, &bank, 2), [0, 3, 0]);
    assert_eq!(rt; record(&rt, &bank, 3), [50, 0, 0]);
}

#[test]
fn the_last_item_off(rt: HostRuntime) {
    let rows = [
        (Command::Enq(40), Some(Reply::Done), 18),
        (Command::Deq, Some(Reply::Found(40)), 5),
    ];
    let room = queue_behind(&rt, rt.alloc(), &rows);
    assert!(rt; room.is_empty());
    let bank = bank_of(&rt, room);
    assert_eq!(rt; record(&rt, &bank, 0), [2, 3, 0]);
    assert_eq!(rt; record(&rt, &bank, 1), [0, 0, 0]);
    assert_eq!(rt; record(&rt, &bank, 2), [0, 0, 0]);
}

#[test]
fn a_take_waits_where_the_queue_is_empty(rt: HostRuntime) {
    let rows = [
        (Command::Take, None, 0),
        (Command::Deq, Some(Reply::Empty), 0),
        (Command::Enq(40), Some(Reply::Done), 18),
        (Command::Take, Some(Reply::Found(40)), 5),
        (Command::Take, None, 0),
    ];
    let room = queue_behind(&rt, rt.alloc(), &rows);
    let entries = [
        noted(0, Command::Deq, Reply::Empty),
        noted(1, Command::Enq(40), Reply::Done),
        noted(2, Command::Take, Reply::Found(40)),
    ];
    assert!(rt; room.history() == entries.as_slice());
    assert!(rt; room.is_empty());
}

#[test]
fn two_epochs(rt: HostRuntime) {
    let mut room = saved_queue(&rt, rt.alloc());
    let second = [
        (Command::Take, Some(Reply::Found(40)), 16),
        (Command::Deq, Some(Reply::Found(50)), 9),
        (Command::Enq(60), Some(Reply::Done), 6),
    ];
    lead(&rt, &mut room, 1, &second, 4);
    end_restore(&rt, &mut room, 2);
    assert!(rt; has_items(&rt, rt.alloc(), &room, &[60]));
    let bank = bank_of(&rt, room);
    assert_eq!(rt; bank.base(0), [2, 4, 1, 0, 4, 2, 2, 0]);
    assert_eq!(rt; bank.base(1), [3, 3, 0, 2, 3, 0, 2, 0]);
    assert_eq!(rt; bank.base(2), [0, 3, 0, 40, 3, 0, 2, 0]);
    assert_eq!(rt; bank.base(3), [60, 0, 0, 50, 0, 0, 2, 0]);
}

/// The queue with 40 and 50 in it, behind a cut in an epoch 2 in which 40 was taken off and 60 put at the back.
fn torn_queue(rt: &impl Abort, alloc: Global) -> QueueRoom
    ensures state { result.cells.state ≡ CellState.Torn 2 }
    ensures idle { IsIdle SETTINGS result }
{
    let mut room = saved_queue(rt, alloc);
    let second = [
        (Command::Take, Some(Reply::Found(40)), 16),
        (Command::Enq(60), Some(Reply::Done), 10),
    ];
    lead(rt, &mut room, 1, &second, 4);
    cut_room(rt, alloc, room, 2)
}

#[test]
fn an_epoch_that_is_undone(rt: HostRuntime) {
    let mut room = torn_queue(&rt, rt.alloc());
    restore(&rt, &mut room, RestoreStep::Stored, 12);
    restore(&rt, &mut room, RestoreStep::Wrote, 4);
    restore(&rt, &mut room, RestoreStep::Fenced, 1);
    end_restore(&rt, &mut room, 2);
    assert!(rt; has_items(&rt, rt.alloc(), &room, &[40, 50]));
    let third = [
        (Command::Deq, Some(Reply::Found(40)), 16),
        (Command::Deq, Some(Reply::Found(50)), 9),
        (Command::Deq, Some(Reply::Empty), 0),
    ];
    lead(&rt, &mut room, 2, &third, 4);
}

/// Puts these items at the back, one behind the other, which all find a place.
fn fill(rt: &impl Abort, room: &mut QueueRoom, items: &[u64])
    requires running { IsRunning room.old.cells.state }
    requires idle { IsIdle SETTINGS room.old }
    ensures state { room.new.cells.state ≡ room.old.cells.state }
    ensures idle { IsIdle SETTINGS room.new }
{
    for &item in items {
        let (reply, _) = carry_out(rt, room, Command::Enq(item));
        assert!(rt; reply == Some(Reply::Done));
    }
}

/// Takes these items off the front.
fn drain(rt: &impl Abort, room: &mut QueueRoom, items: &[u64])
    requires running { IsRunning room.old.cells.state }
    requires idle { IsIdle SETTINGS room.old }
    ensures state { room.new.cells.state ≡ room.old.cells.state }
    ensures idle { IsIdle SETTINGS room.new }
{
    for &item in items {
        let (reply, _) = carry_out(rt, room, Command::Deq);
        assert!(rt; reply == Some(Reply::Found(item)));
    }
}

/// Fills the empty queue with as many items as have a place; the next one has none.
fn fill_up(rt: &impl Abort, alloc: Global, room: &mut QueueRoom, items: [u64; 14])
    requires running { IsRunning room.old.cells.state }
    requires idle { IsIdle SETTINGS room.old }
    ensures state { room.new.cells.state ≡ room.old.cells.state }
    ensures idle { IsIdle SETTINGS room.new }
{
    fill(rt, room, &items);
    assert!(rt; carry_out(rt, room, Command::Enq(90)) == (Some(Reply::Full), 0));
    assert!(rt; has_items(rt, alloc, room, &items));
}

#[test]
fn full_empty_and_full_again(rt: HostRuntime) {
    let mut room = queue_room(&rt, rt.alloc());
    let items = [1, 2, 3, 4, 5, 6, 7, 8, 9, 10, 11, 12, 13, 14];
    let others = [21, 22, 23, 24, 25, 26, 27, 28, 29, 30, 31, 32, 33, 34];
    fill_up(&rt, rt.alloc(), &mut room, items);
    drain(&rt, &mut room, &items);
    assert!(rt; room.is_empty());
    fill_up(&rt, rt.alloc(), &mut room, others);
    let bank = bank_of(&rt, room);
    assert_eq!(rt; record(&rt, &bank, 0), [0, 16, 14]);
    assert_eq!(rt; record(&rt, &bank, 1), [15, 2, 0]);
}
