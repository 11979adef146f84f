//! A room of four lines by hand: lines are taken, given back and counted, and the header's words compared with those that
//! were worked out on paper.

ghost use Rattle.std.specs.Prelude.{true, IsTrue, IfOk, length, ◌≡◌};
ghost use Rattle.line_memory.specs.Line.{bank_load};
ghost use Rattle.incll_var.specs.Cells.{IsRunning, AreSettled, epoch_of};
ghost use Rattle.incll_var.specs.Plans.{IsPlanned};
ghost use Rattle.room_laws.specs.Stocks.{IsHeader};

use crate::{TakeRefusal, plan_count, plan_give, plan_take};
use incll_var::{CellBank, CellState, Plan};
use line_memory::Bank;
use std::alloc::{AllocError, Global};
use std::process::Abort;
use std::test::Fail;

/// Four lines with this header, which it is made sure are settled at epoch 0.
fn bank_of(rt: &impl Abort, alloc: Global, header: [u64; 8]) -> Result<Bank, AllocError>
    ensures { IfOk result (λ bank. AreSettled 0 bank.lines) }
{
    let mut base = Vec::new(alloc);
    base.extend_from_slice(&[header, [0; 8], [0; 8], [0; 8]])?;
    assert!(rt; base.len() == 4);
    let bank = Bank::of(alloc, base)?;
    for line in 0..bank.lines() {
        assert!(rt; bank.pending(line) == 0 && bank.base(line)[6] == 0);
    }
    Ok(bank)
}

fn is_running(state: CellState) -> bool
    ensures { IsTrue result → IsRunning state }
{
    matches!(state, CellState::Running(_))
}

fn has_header(cells: &CellBank) -> bool
    ensures { IsTrue result → IsHeader (length cells.now.bank.lines) (bank_load cells.now.bank) }
{
    let lines = cells.lines();
    lines > 0 && cells.load(0, 0) < u64::from(lines) && cells.load(0, 1) <= u64::from(lines)
}

/// Makes the stores of the plan, and says how many they were.
fn make(cells: &mut CellBank, plan: &mut Plan) -> Result<u32, AllocError>
    requires running { IsRunning cells.old.state }
    requires planned { IsPlanned (epoch_of cells.old.state) cells.old.bank.lines plan.old.stores }
{
    let stores = plan.left();
    cells.ready(plan)?;
    while plan.left() > 0 {
        cells.play(plan);
    }
    Ok(stores)
}

/// Takes a line, and gives it with the number of its stores; none where the room is full.
fn take(
    rt: &impl Abort,
    alloc: Global,
    cells: &mut CellBank,
) -> Result<Option<(u32, u32)>, AllocError> {
    assert!(rt; is_running(cells.state()));
    assert!(rt; has_header(cells));
    let mut plan = Plan::new(alloc);
    match plan_take(cells, &mut plan) {
        Ok(line) => {
            let stores = make(cells, &mut plan)?;
            Ok(Some((line, stores)))
        }
        Err(TakeRefusal::Full) => Ok(None),
        Err(TakeRefusal::OutOfMemory) => Err(AllocError),
    }
}

/// A room of four lines with this header, entered in epoch 1.
fn room_of(rt: &impl Abort, alloc: Global, header: [u64; 3]) -> Result<CellBank, AllocError>
    ensures { IfOk result (λ cells. IsRunning cells.state) }
{
    let [free, fresh, count] = header;
    let bank = bank_of(rt, alloc, [free, fresh, count, 0, 0, 0, 0, 0])?;
    let mut cells = CellBank::clean(alloc, bank, 0)?;
    cells.enter(1);
    Ok(cells)
}

/// What taking a line of a room with this header answers, and the header's words behind its stores.
fn taken(
    rt: &impl Abort,
    alloc: Global,
    header: [u64; 3],
) -> Result<(Option<(u32, u32)>, [u64; 3]), AllocError> {
    let mut cells = room_of(rt, alloc, header)?;
    let line = take(rt, alloc, &mut cells)?;
    assert!(rt; cells.lines() == 4);
    Ok((line, cells.triple(0)))
}

#[test]
fn lines_that_are_taken(rt: HostRuntime) -> Result<(), Fail> {
    let rows = [
        ([0, 2, 0], (Some((2, 5)), [0, 3, 0])),
        ([3, 4, 1], (Some((3, 5)), [0, 4, 1])),
        ([0, 4, 2], (None, [0, 4, 2])),
    ];
    for (header, want) in rows {
        assert!(rt; taken(&rt, rt.alloc(), header)? == want);
    }
    Ok(())
}

#[test]
fn a_line_that_is_given_back(rt: HostRuntime) -> Result<(), Fail> {
    let mut cells = room_of(&rt, rt.alloc(), [3, 4, 1])?;
    assert!(rt; cells.lines() == 4);
    let mut plan = Plan::new(rt.alloc());
    plan_give(&cells, 2, &mut plan)?;
    plan_count(&cells, 0, &mut plan)?;
    assert_eq!(rt; make(&mut cells, &mut plan)?, 11);
    assert!(rt; cells.lines() == 4);
    assert_eq!(rt; (cells.triple(0), cells.triple(2)), ([2, 4, 0], [3, 0, 0]));
    Ok(())
}
