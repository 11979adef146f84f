//! Rooms driven on by hand, and words with their bits. The helpers look first whether a call may be made.

ghost use Rattle.std.specs.Prelude.{◌≡◌, ◌<◌, length, IfOk};
ghost use Rattle.incll_var.specs.Cells.{AreSettled, IsSaved, IsTorn, MayEnter, epoch_of, with_state};
ghost use Rattle.restart_point.specs.Rooms.{IsThreadRoom, IsIdle, IsUnwritten, with_cells};

use crate::{Arrival, ThreadEnd, ThreadRoom};
use incll_var::{CellBank, CellState, RestoreStep};
use line_memory::Bank;
use planned_cells::CellRoom;
use room_model::TAG;
use std::alloc::{AllocError, Global};
use std::process::Abort;
use std::test::Fail;

/// A bank of one line with these words in memory, which it is made sure are settled at this epoch.
fn bank_of(rt: &impl Abort, alloc: Global, words: [u64; 8], epoch: u32) -> Result<Bank, AllocError>
    ensures settled { IfOk result (λ bank. AreSettled epoch bank.lines) }
    ensures one { IfOk result (λ bank. length bank.lines ≡ 1) }
{
    let mut base = Vec::new(alloc);
    base.push(words)?;
    let bank = Bank::of(alloc, base)?;
    assert!(rt; bank.lines() == 1);
    assert!(rt; bank.pending(0) == 0 && bank.base(0)[TAG as usize] <= u64::from(epoch));
    Ok(bank)
}

/// A saved room over these words.
fn saved_room(
    rt: &impl Abort,
    alloc: Global,
    words: [u64; 8],
    epoch: u32,
) -> Result<ThreadRoom, AllocError>
    ensures saved { IfOk result (λ room. IsSaved room.cells.state) }
    ensures epoch { IfOk result (λ room. epoch_of room.cells.state ≡ epoch) }
{
    let bank = bank_of(rt, alloc, words, epoch)?;
    ThreadRoom::of(
        alloc,
        CellBank::clean(alloc, bank, epoch)?,
        ThreadEnd::Waits,
    )
}

#[test]
fn words_of_arrivals(rt: HostRuntime) -> Result<(), Fail> {
    let arrival = Arrival {
        mask: 0b101,
        closing: true,
        over: false,
        fed: true,
        epoch: 9,
    };
    assert_eq!(rt; arrival.word(), 0x9_0005_0005);
    assert!(rt; Arrival::of(0x9_0005_0005) == arrival);
    let all = Arrival::of(0x1_0002_FFFF);
    assert!(rt; all.over && !all.closing && !all.fed && all.epoch == 1);
    assert!(rt; all.all_stand(16) && !all.all_stand(17));
    assert!(rt; arrival.all_stand(1) && !arrival.all_stand(2));
    Ok(())
}

/// Enters the epoch behind those that are saved: the position is not yet written in it.
fn enter(room: &mut ThreadRoom, epoch: u32)
    requires saved { IsSaved room.old.cells.state }
    requires may { MayEnter room.old.cells.state epoch }
    ensures is { room.new ≡ with_cells room.old (with_state room.old.cells (CellState.Running epoch)) }
    ensures unwritten { IsUnwritten room.new }
{
    let _position = room.position();
    room.enter(epoch);
}

#[test]
fn a_position_is_written(rt: HostRuntime) -> Result<(), Fail> {
    let words = [3, 0, 0, 0, 0, 0, 2, 0];
    let mut room = saved_room(&rt, rt.alloc(), words, 2)?;
    assert!(rt; room.position() == 3 && room.end() == ThreadEnd::Waits);
    room.set_end(ThreadEnd::Ready);
    assert!(rt; room.end() == ThreadEnd::Ready);
    enter(&mut room, 3);
    room.begin(8, ThreadEnd::Ended);
    assert!(rt; room.left() == 5 && room.position() == 3);
    assert!(rt; room.step());
    assert!(rt; room.step());
    assert!(rt; room.step());
    assert!(rt; room.step());
    assert!(rt; !room.step());
    assert!(rt; room.left() == 0 && room.position() == 8 && room.end() == ThreadEnd::Ended);
    let count = room.close_begin();
    assert!(rt; count == 1);
    assert!(rt; !room.close_next());
    room.close_fence();
    assert_eq!(rt; room.position(), 8);
    let bank = room.into_bank();
    assert!(rt; bank.lines() == 1);
    assert_eq!(rt; bank.base(0), [8, 0, 0, 3, 0, 0, 3, 0]);
    Ok(())
}

#[test]
fn a_position_is_restored(rt: HostRuntime) -> Result<(), Fail> {
    let bank = bank_of(&rt, rt.alloc(), [8, 0, 0, 3, 0, 0, 3, 0], 3)?;
    let cells = CellBank::torn(rt.alloc(), bank, 3)?;
    assert!(rt; cells.lines() == 1);
    let mut room = ThreadRoom::of(rt.alloc(), cells, ThreadEnd::Ready)?;
    assert!(rt; room.restore_next() == RestoreStep::Stored);
    assert!(rt; room.restore_next() == RestoreStep::Stored);
    assert!(rt; room.restore_next() == RestoreStep::Stored);
    assert!(rt; room.restore_next() == RestoreStep::Wrote);
    assert!(rt; room.restore_next() == RestoreStep::Fenced);
    assert!(rt; room.restore_next() == RestoreStep::Finished);
    room.set_end(ThreadEnd::Ready);
    assert!(rt; room.position() == 3 && room.left() == 0);
    Ok(())
}
