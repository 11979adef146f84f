//! A map room of sixteen lines, the one room of its map, by hand: commands are carried out, epochs are closed, and the
//! replies, the numbers of stores and the pairs compared with those that were worked out on paper.

ghost use Rattle.std.specs.Prelude.{◌≡◌, length, IsTrue};
ghost use Rattle.seq_object.specs.Sizes.{sizes_of};
ghost use Rattle.seq_object.specs.Object.{room_of};
ghost use Rattle.line_memory.specs.Line.{bank_load};
ghost use Rattle.room_model.specs.Chains.{HasSameRecords};
ghost use Rattle.room_model.specs.MapRoom.{live_layout};
ghost use Rattle.room_model.specs.Formatted.{formatted, first_node};
ghost use Rattle.incll_var.specs.Cells.{IsCellBank, IsRunning};
ghost use Rattle.locked_map.specs.Tests.{IsIdle, HasFinished};

use crate::MapRoom;
use command_room::RunsCommands as _;
use formatting::format_room;
use incll_var::{CellBank, CellState, RestoreStep};
use planned_cells::CellRoom;
use seq_object::{Command, Entry, Pair, Reply, Settings};
use std::alloc::{AllocError, Global};
use std::process::Abort;
use std::test::Fail;

const SETTINGS: Settings = Settings {
    threads: 1,
    shards: 1,
    lines: 16,
    every: 1,
};

/// A command, its reply, and how many stores it takes.
type Row = (Command, Reply, u32);

/// The cells of the room of the one shard of formatted memory, saved before the first epoch.
fn formatted_cells(rt: &impl Abort, alloc: Global) -> CellBank
    ensures state { result.state ≡ CellState.Saved 0 }
    ensures cells { IsCellBank result }
    ensures lines { length result.bank.lines ≡ 16 }
    ensures loads { HasSameRecords (bank_load result.bank) (formatted (first_node live_layout (sizes_of SETTINGS) 0)) }
{
    let bank = format_room(alloc, SETTINGS.sizes(), 0).expect(rt, "memory");
    CellBank::clean(alloc, bank, 0).expect(rt, "memory")
}

/// The empty room, entered in epoch 1.
fn map_room(rt: &impl Abort, alloc: Global) -> MapRoom
    ensures state { result.cells.state ≡ CellState.Running 1 }
    ensures idle { IsIdle SETTINGS result }
{
    let cells = formatted_cells(rt, alloc);
    let mut room = MapRoom::of(alloc, cells, SETTINGS, 0);
    room.enter(1);
    room
}

/// Whether this is a command of the one room.
fn is_of_room(command: Command) -> bool
    ensures { IsTrue result → room_of (sizes_of SETTINGS) command ≡ 0 }
{
    match command {
        Command::Put(key, _) => key % u64::from(SETTINGS.shards) == 0,
        Command::Get(key) => key % u64::from(SETTINGS.shards) == 0,
        Command::Del(key) => key % u64::from(SETTINGS.shards) == 0,
        _ => false,
    }
}

/// Makes the stores that are left, and says how many they were.
fn finish(room: &mut MapRoom) -> u32
    ensures { HasFinished room.old room.new }
{
    let stores = room.left();
    while room.left() > 0 {
        room.step();
    }
    stores
}

/// Carries out a command, and gives its reply and the number of its stores.
fn carry_out(
    rt: &impl Abort,
    room: &mut MapRoom,
    command: Command,
) -> Result<(Reply, u32), AllocError>
    requires running { IsRunning room.old.cells.state }
    requires idle { IsIdle SETTINGS room.old }
    ensures state { room.new.cells.state ≡ room.old.cells.state }
    ensures idle { IsIdle SETTINGS room.new }
{
    assert!(rt; is_of_room(command));
    let reply = room.begin(command)?;
    let stores = finish(room);
    let entry = Entry {
        thread: 0,
        index: 0,
        command,
        reply,
    };
    room.note(0, entry);
    Ok((reply, stores))
}

/// Carries out these commands, and compares their replies and the numbers of their stores.
fn carry_out_all(rt: &impl Abort, room: &mut MapRoom, rows: &[Row]) -> Result<(), AllocError>
    requires running { IsRunning room.old.cells.state }
    requires idle { IsIdle SETTINGS room.old }
    ensures state { room.new.cells.state ≡ room.old.cells.state }
    ensures idle { IsIdle SETTINGS room.new }
{
    for &(command, reply, stores) in rows {
        assert!(rt; carry_out(rt, room, command)? == (reply, stores));
    }
    Ok(())
}

/// Closes this epoch, and says how many lines were stored to in it.
fn close(room: &mut MapRoom, epoch: u32) -> u32
    requires state { room.old.cells.state ≡ CellState.Running epoch }
    requires idle { IsIdle SETTINGS room.old }
    ensures state { room.new.cells.state ≡ CellState.Saved epoch }
    ensures idle { IsIdle SETTINGS room.new }
{
    let count = room.close_begin();
    if count == 0 {
        return 0;
    }
    let mut more = true;
    while more {
        more = room.close_next();
    }
    room.close_fence();
    count
}

#[test]
fn two_epochs(rt: HostRuntime) -> Result<(), Fail> {
    let alloc = rt.alloc();
    let mut room = map_room(&rt, alloc);
    let first = [
        (Command::Put(5, 7), Reply::New, 18),
        (Command::Get(5), Reply::Found(7), 0),
    ];
    carry_out_all(&rt, &mut room, &first)?;
    assert_eq!(rt; close(&mut room, 1), 3);
    room.enter(2);
    let second = [
        (Command::Del(5), Reply::Gone(7), 16),
        (Command::Put(6, 8), Reply::New, 10),
    ];
    carry_out_all(&rt, &mut room, &second)?;
    assert_eq!(rt; room.history().len(), 4);
    assert_eq!(rt; close(&mut room, 2), 4);
    assert!(rt; room.restore_next() == RestoreStep::Finished);
    let pairs = room.entries(alloc)?;
    assert!(rt; pairs.as_slice() == [Pair { key: 6, value: 8 }].as_slice());
    let bank = room.into_bank();
    assert!(rt; bank.lines() > 9);
    assert_eq!(rt; bank.base(9), [6, 8, 0, 5, 7, 0, 2, 0]);
    Ok(())
}

#[test]
fn keys_of_one_bucket(rt: HostRuntime) -> Result<(), Fail> {
    let alloc = rt.alloc();
    let mut room = map_room(&rt, alloc);
    let rows = [
        (Command::Put(1, 10), Reply::New, 18),
        (Command::Put(9, 20), Reply::New, 10),
        (Command::Put(17, 30), Reply::New, 10),
        (Command::Put(25, 40), Reply::New, 10),
        (Command::Del(17), Reply::Gone(30), 4),
        (Command::Del(25), Reply::Gone(40), 4),
        (Command::Del(1), Reply::Gone(10), 4),
        (Command::Get(9), Reply::Found(20), 0),
        (Command::Del(33), Reply::Absent, 0),
    ];
    carry_out_all(&rt, &mut room, &rows)?;
    let pairs = room.entries(alloc)?;
    assert!(rt; pairs.as_slice() == [Pair { key: 9, value: 20 }].as_slice());
    Ok(())
}

#[test]
fn a_full_room(rt: HostRuntime) -> Result<(), Fail> {
    let mut room = map_room(&rt, rt.alloc());
    let rows = [
        (Command::Put(0, 1), Reply::New, 18),
        (Command::Put(1, 2), Reply::New, 14),
        (Command::Put(2, 3), Reply::New, 14),
        (Command::Put(3, 4), Reply::New, 14),
        (Command::Put(4, 5), Reply::New, 14),
        (Command::Put(5, 6), Reply::New, 14),
        (Command::Put(6, 7), Reply::New, 14),
        (Command::Put(7, 8), Reply::Full, 0),
        (Command::Put(3, 9), Reply::Old(4), 1),
    ];
    carry_out_all(&rt, &mut room, &rows)?;
    Ok(())
}
