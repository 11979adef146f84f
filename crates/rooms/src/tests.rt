//! A room of each kind led by hand, in memory of the least sizes as it is formatted. The counts and the words were worked out
//! on paper.

ghost use Rattle.std.specs.Prelude.{◌≡◌, ◌<◌, ◌≤◌, [], length};
ghost use Rattle.seq_object.specs.Sizes.{sizes_of, line_count};
ghost use Rattle.line_memory.specs.Line.{bank_load};
ghost use Rattle.room_model.specs.Chains.{HasSameRecords};
ghost use Rattle.room_model.specs.MapRoom.{live_layout};
ghost use Rattle.room_model.specs.Formatted.{formatted, first_node};
ghost use Rattle.incll_var.specs.Cells.{IsCellBank, IsSaved, MayEnter};
ghost use Rattle.command_room.specs.Room.{MayBeRoom};
ghost use Rattle.restart_point.specs.Rooms.{IsUnwritten};

use crate::{CellRoom, Room};
use epoch_word::SuperRoom;
use formatting::format_room;
use incll_var::{CellBank, CellState, RestoreStep};
use line_memory::Bank;
use locked_map::MapRoom;
use locked_queue::QueueRoom;
use restart_point::{ThreadEnd, ThreadRoom};
use seq_object::Settings;
use std::alloc::Global;
use std::process::Abort;

const SETTINGS: Settings = Settings {
    threads: 1,
    shards: 1,
    lines: 16,
    every: 1,
};

/// The cells of a room of formatted memory, by its number, saved before the first epoch.
fn cells_of(rt: &impl Abort, alloc: Global, room: u32) -> CellBank
    requires { room < 4 }
    ensures state { result.state ≡ CellState.Saved 0 }
    ensures cells { IsCellBank result }
    ensures lines { length result.bank.lines ≡ line_count (sizes_of SETTINGS) room }
    ensures loads { room ≤ 1 → HasSameRecords (bank_load result.bank) (formatted (first_node live_layout (sizes_of SETTINGS) room)) }
{
    let bank = format_room(alloc, SETTINGS.sizes(), room).expect(rt, "memory");
    CellBank::clean(alloc, bank, 0).expect(rt, "memory")
}

/// The cells of the room of the one shard or of the queue.
fn command_cells(rt: &impl Abort, alloc: Global, room: u32) -> CellBank
    requires { room ≤ 1 }
    ensures state { result.state ≡ CellState.Saved 0 }
    ensures may_be { MayBeRoom SETTINGS room result }
{
    cells_of(rt, alloc, room)
}

/// Enters an epoch in a room whose position is not yet written in it.
fn enter(room: &mut ThreadRoom, epoch: u32)
    requires saved { IsSaved room.old.cells.state }
    requires may { MayEnter room.old.cells.state epoch }
    ensures state { room.new.cells.state ≡ CellState.Running epoch }
    ensures unwritten { IsUnwritten room.new }
{
    let _position = room.position();
    room.enter(epoch);
}

/// Makes the stores that are left of a write of the position, and says how many they were.
fn finish(room: &mut ThreadRoom) -> u32
    ensures state { room.new.cells.state ≡ room.old.cells.state }
    ensures idle { room.new.plan.stores ≡ [] }
{
    let stores = room.left();
    while room.left() > 0 {
        room.step();
    }
    stores
}

/// The room of the one thread, which ended in epoch 1 at position 8.
fn ended_thread(rt: &impl Abort, alloc: Global) -> ThreadRoom
    ensures state { result.cells.state ≡ CellState.Running 1 }
    ensures idle { result.plan.stores ≡ [] }
{
    let cells = cells_of(rt, alloc, 2);
    let mut room = ThreadRoom::of(alloc, cells, ThreadEnd::Ready).expect(rt, "memory");
    enter(&mut room, 1);
    room.begin(8, ThreadEnd::Ended);
    assert!(rt; finish(&mut room) == 5);
    room
}

#[test]
fn a_map_room_without_a_command(rt: HostRuntime) {
    let cells = command_cells(&rt, rt.alloc(), 0);
    let mut room = Room::Map(MapRoom::of(rt.alloc(), cells, SETTINGS, 0));
    room.enter(1);
    assert!(rt; room.is_idle());
    let count = room.close_begin();
    assert!(rt; count == 0);
    assert!(rt; room.restore_next() == RestoreStep::Finished);
    assert!(rt; room.bank().lines() == 16);
    assert_eq!(rt; room.load(0, 1), 9);
    assert_eq!(rt; room.into_bank().write_backs(), 0);
}

#[test]
fn a_queue_room_without_a_command(rt: HostRuntime) {
    let cells = command_cells(&rt, rt.alloc(), 1);
    let mut room = Room::Queue(QueueRoom::of(rt.alloc(), cells, SETTINGS));
    room.enter(1);
    assert!(rt; room.is_idle());
    let count = room.close_begin();
    assert!(rt; count == 0);
    assert!(rt; room.restore_next() == RestoreStep::Finished);
    assert!(rt; room.bank().lines() == 16);
    assert_eq!(rt; room.load(0, 1), 2);
    assert_eq!(rt; room.into_bank().write_backs(), 0);
}

#[test]
fn a_thread_room_that_is_closed(rt: HostRuntime) {
    let mut room = Room::Thread(ended_thread(&rt, rt.alloc()));
    assert!(rt; room.is_idle());
    let count = room.close_begin();
    assert!(rt; count == 1);
    assert!(rt; !room.close_next());
    room.close_fence();
    assert!(rt; room.restore_next() == RestoreStep::Finished);
    assert!(rt; room.bank().lines() == 1);
    assert_eq!(rt; room.load(0, 0), 8);
    let bank = room.into_bank();
    assert!(rt; bank.lines() == 1);
    assert_eq!(rt; bank.base(0), [8, 0, 0, 0, 0, 0, 1, 0]);
}

#[test]
fn the_super_room_has_nothing_to_restore(rt: HostRuntime) {
    let mut base = Vec::new(rt.alloc());
    base.push([7, 0, 0, 0, 0, 0, 0, 0]).expect(&rt, "memory");
    let bank = Bank::of(rt.alloc(), base).expect(&rt, "memory");
    let mut room = Room::Super(SuperRoom::of(bank).expect(&rt, "memory"));
    assert!(rt; room.is_idle());
    assert!(rt; room.restore_next() == RestoreStep::Finished);
    assert!(rt; room.bank().lines() == 1);
    assert_eq!(rt; room.load(0, 0), 7);
    assert_eq!(rt; room.into_bank().write_backs(), 0);
}
