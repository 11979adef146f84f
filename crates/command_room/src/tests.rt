//! The queue room of a memory with sixteen lines a room, by hand: an item is put at the back of the empty queue, and the
//! epoch is closed; or its plan is put back. The command's writes, its stores, the loads and the words at the end were worked
//! out on paper.

ghost use Rattle.std.specs.Prelude.{◌≡◌, ◌<◌, true, [], length, None, Some, IsTrue, OnOk};
ghost use Rattle.seq_object.specs.Sizes.{sizes_of};
ghost use Rattle.line_memory.specs.Line.{bank_load};
ghost use Rattle.room_model.specs.Formatted.{formatted, first_node};
ghost use Rattle.room_model.specs.MapRoom.{live_layout};
ghost use Rattle.incll_var.specs.Cells.{IsCellBank, IsRunning, IsClosing, MayClose, MayRestore};
ghost use Rattle.command_room.specs.Room.{IsCommandRoom, HasPlanned, with_plan};
ghost use Rattle.room_model.specs.Chains.{HasSameRecords};

use crate::{CommandRoom, RunsCommands as _};
use formatting::format_room;
use incll_var::{CellBank, CellState, Plan, RestoreStep};
use planned_cells::CellRoom;
use seq_object::{Command, Entry, Noted, Reply, Settings};
use std::alloc::{AllocError, Global};
use std::process::Abort;

const SETTINGS: Settings = Settings {
    threads: 1,
    shards: 1,
    lines: 16,
    every: 1,
};

const ENTRY: Entry = Entry {
    thread: 0,
    index: 0,
    command: Command::Enq(40),
    reply: Reply::Done,
};

fn may_close(state: CellState) -> bool
    ensures { IsTrue result → MayClose state }
{
    matches!(state, CellState::Running(_) | CellState::Saved(_))
}

fn is_closing(state: CellState) -> bool
    ensures { IsTrue result → IsClosing state }
{
    matches!(state, CellState::Closing(_))
}

fn may_restore(state: CellState) -> bool
    ensures { IsTrue result → MayRestore state }
{
    matches!(state, CellState::Torn(_) | CellState::Saved(_))
}

/// The cells of the queue room of formatted memory, saved before the first epoch.
fn formatted_cells(rt: &impl Abort, alloc: Global) -> CellBank
    ensures state { result.state ≡ CellState.Saved 0 }
    ensures cells { IsCellBank result }
    ensures lines { length result.bank.lines ≡ 16 }
    ensures loads { HasSameRecords (bank_load result.bank) (formatted (first_node live_layout (sizes_of SETTINGS) 1)) }
{
    let bank = format_room(alloc, SETTINGS.sizes(), 1).expect(rt, "memory");
    CellBank::clean(alloc, bank, 0).expect(rt, "memory")
}

/// The empty queue room, entered in epoch 1.
fn queue_room(rt: &impl Abort, alloc: Global) -> CommandRoom
    ensures room { IsCommandRoom result }
    ensures running { IsRunning result.cells.state }
    ensures settings { result.settings ≡ SETTINGS }
    ensures number { result.room ≡ 1 }
    ensures idle { result.under_way ≡ None }
    ensures plan { result.plan.stores ≡ [] }
    ensures loads { HasSameRecords (bank_load result.cells.bank) (formatted 2) }
{
    let cells = formatted_cells(rt, alloc);
    let mut room = CommandRoom::of(alloc, cells, SETTINGS, 1);
    room.enter(1);
    room
}

/// Begins the command that puts an item at the back of the empty queue.
fn begin_first(rt: &impl Abort, room: &mut CommandRoom, value: u64)
    requires room { IsCommandRoom room.old }
    requires running { IsRunning room.old.cells.state }
    requires settings { room.old.settings ≡ SETTINGS }
    requires number { room.old.room ≡ 1 }
    requires idle { room.old.under_way ≡ None }
    requires loads { HasSameRecords (bank_load room.old.cells.bank) (formatted 2) }
    ensures room { IsCommandRoom room.new }
    ensures under { room.new.under_way ≡ Some (record { command = Command.Enq value; reply = Reply.Done }) }
{
    let mut plan = room.take_plan();
    plan_first(room, value, &mut plan).expect(rt, "memory");
    room.begin_planned(plan, Command::Enq(value), Reply::Done)
        .expect(rt, "memory");
}

/// Plans an item at the back of the empty queue.
fn plan_first(room: &CommandRoom, value: u64, plan: &mut Plan) -> Result<(), AllocError>
    requires room { IsCommandRoom room.now }
    requires running { IsRunning room.now.cells.state }
    requires settings { room.now.settings ≡ SETTINGS }
    requires number { room.now.room ≡ 1 }
    requires idle { room.now.under_way ≡ None }
    requires plan { plan.old.stores ≡ [] }
    requires loads { HasSameRecords (bank_load room.now.cells.bank) (formatted 2) }
    ensures { OnOk result (HasPlanned (with_plan room.now plan.new) (Command.Enq value) Reply.Done) }
{
    let cells = room.cells();
    cells.plan_write(0, 1, 3, plan)?;
    cells.plan_write(2, 0, value, plan)?;
    cells.plan_write(2, 1, 0, plan)?;
    cells.plan_write(1, 0, 2, plan)?;
    cells.plan_write(1, 1, 2, plan)?;
    cells.plan_write(0, 2, 1, plan)
}

/// Makes the stores that are left, and says how many they were. Each step says whether one is left behind it.
fn finish(rt: &impl Abort, room: &mut CommandRoom) -> u32
    requires { IsCommandRoom room.old }
    ensures room { IsCommandRoom room.new }
    ensures plan { room.new.plan.stores ≡ [] }
    ensures under { room.new.under_way ≡ room.old.under_way }
{
    let stores = room.left();
    while room.left() > 0 {
        let more = room.step();
        assert!(rt; more == (room.left() > 0));
    }
    stores
}

/// Closes the epoch, and says how many lines were stored to in it.
fn close(rt: &impl Abort, room: &mut CommandRoom) -> u32
    requires room { IsCommandRoom room.old }
    requires idle { room.old.under_way ≡ None }
    ensures { IsCommandRoom room.new }
{
    assert!(rt; may_close(room.cells().state()));
    let count = room.close_begin();
    if count == 0 {
        return 0;
    }
    let mut more = true;
    while more {
        assert!(rt; is_closing(room.cells().state()));
        more = room.close_next();
    }
    assert!(rt; is_closing(room.cells().state()));
    room.close_fence();
    count
}

/// The record of a line by loads.
fn record(rt: &impl Abort, room: &CommandRoom, line: u32) -> [u64; 3] {
    assert!(rt; line < room.cells().lines());
    room.cells().triple(line)
}

/// A room in which one item was put at the back of the queue, with this ticket.
fn room_of_one(rt: &impl Abort, alloc: Global, ticket: u64) -> CommandRoom
    ensures room { IsCommandRoom result }
    ensures idle { result.under_way ≡ None }
{
    let mut room = queue_room(rt, alloc);
    begin_first(rt, &mut room, 40);
    assert!(rt; !room.is_idle());
    assert!(rt; finish(rt, &mut room) == 18);
    room.note(ticket, ENTRY);
    room
}

#[test]
fn an_item_at_the_back(rt: HostRuntime) {
    let room = room_of_one(&rt, rt.alloc(), 5);
    let noted = Noted {
        ticket: 5,
        entry: ENTRY,
    };
    assert!(rt; room.history() == [noted].as_slice());
    assert_eq!(rt; record(&rt, &room, 0), [0, 3, 1]);
    assert_eq!(rt; record(&rt, &room, 1), [2, 2, 0]);
    assert_eq!(rt; record(&rt, &room, 2), [40, 0, 0]);
}

#[test]
fn an_item_that_is_saved(rt: HostRuntime) {
    let mut room = room_of_one(&rt, rt.alloc(), 0);
    assert_eq!(rt; close(&rt, &mut room), 3);
    assert!(rt; may_restore(room.cells().state()));
    assert!(rt; room.restore_next() == RestoreStep::Finished);
    let bank = room.into_bank();
    assert!(rt; bank.lines() == 16);
    assert_eq!(rt; bank.base(2), [40, 0, 0, 0, 0, 0, 1, 0]);
    assert_eq!(rt; bank.base(0), [0, 3, 1, 0, 2, 0, 1, 0]);
}

#[test]
fn a_plan_that_is_put_back(rt: HostRuntime) {
    let mut room = queue_room(&rt, rt.alloc());
    let mut plan = room.take_plan();
    plan_first(&room, 40, &mut plan).expect(&rt, "memory");
    assert!(rt; plan.left() == 18);
    room.put_back(plan);
    assert!(rt; room.is_idle());
    assert_eq!(rt; room.left(), 0);
    assert_eq!(rt; record(&rt, &room, 0), [0, 2, 0]);
}

#[test]
fn a_room_told_by_its_calls(rt: HostRuntime) {
    let room = room_of_one(&rt, rt.alloc(), 0);
    assert!(rt; room.settings() == SETTINGS);
    assert!(rt; room.bank().lines() == 16);
    assert_eq!(rt; room.bank().pending(0), 6);
    assert_eq!(rt; room.load(0, 1), 3);
    assert_eq!(rt; room.load(0, 4), 2);
    assert_eq!(rt; room.load(2, 0), 40);
}
