//! A world that is put together from rooms of one line each, and taken apart. The helper looks first whether a call may be made.

ghost use Rattle.std.specs.Prelude.{◌≡◌, length, IfOk};
ghost use Rattle.incll_var.specs.Cells.{AreSettled};
ghost use Rattle.rooms.specs.Rooms.{bank_of};

use crate::{Room, World, WorldParts};
use epoch_word::SuperRoom;
use incll_var::CellBank;
use line_memory::Bank;
use restart_point::{ThreadEnd, ThreadRoom};
use std::alloc::{AllocError, Global};
use std::process::Abort;
use std::test::Fail;

/// A thread's room at this position, saved at epoch 6.
fn thread_room(rt: &impl Abort, alloc: Global, position: u64) -> Result<Room, AllocError>
    ensures { IfOk result (λ room. length (bank_of room).lines ≡ 1) }
{
    let mut base = Vec::new(alloc);
    base.push([position, 0, 0, 0, 0, 0, 4, 0])?;
    let bank = settled(rt, Bank::of(alloc, base)?);
    Ok(Room::Thread(ThreadRoom::of(alloc, CellBank::clean(alloc, bank, 6)?, ThreadEnd::Ready)?))
}

/// A bank of one line, of which it is made sure that nothing is pending on it and its tag is at most 6.
fn settled(rt: &impl Abort, bank: Bank) -> Bank
    ensures settled { AreSettled 6 result.lines }
    ensures one { length result.lines ≡ 1 }
{
    assert!(rt; bank.lines() == 1);
    assert!(rt; bank.pending(0) == 0 && bank.base(0)[6] <= 6);
    bank
}

/// The super room in epoch 7.
fn super_room(alloc: Global) -> Result<Room, AllocError>
    ensures { IfOk result (λ room. length (bank_of room).lines ≡ 1) }
{
    let mut base = Vec::new(alloc);
    base.push([7, 0, 0, 0, 0, 0, 0, 0])?;
    Ok(Room::Super(SuperRoom::of(Bank::of(alloc, base)?)?))
}

#[test]
fn a_world_of_two_rooms(rt: HostRuntime) -> Result<(), Fail> {
    let mut rooms = Vec::new(rt.alloc());
    rooms.push(thread_room(&rt, rt.alloc(), 5)?)?;
    rooms.push(super_room(rt.alloc())?)?;
    let mut held = Vec::with_capacity(rt.alloc(), 2)?;
    held.push(0)?;
    let world = World::of(WorldParts {
        rooms,
        arrival: 0x7_0000_0001,
        clock: 3,
        held,
        spare: Vec::with_capacity(rt.alloc(), 2)?,
    });
    assert_eq!(rt; world.rooms().len(), 2);
    assert_eq!(rt; world.arrival(), 0x7_0000_0001);
    assert_eq!(rt; world.clock(), 3);
    assert_eq!(rt; world.held()[0], 0);
    let parts = world.into_parts();
    assert_eq!(rt; parts.clock, 3);
    let memory = World::of(parts).memory();
    assert_eq!(rt; memory.rooms(), 2);
    assert_eq!(rt; memory.bank(0).base(0)[0], 5);
    assert_eq!(rt; memory.bank(1).base(0)[0], 7);
    Ok(())
}
