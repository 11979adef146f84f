//! The plans that take a line, give one back and set the count. All words are read from the cells, as they were before the
//! first store of the plan.

ghost use Rattle.std.specs.Prelude.{◌≡◌, ◌<◌, ◌&&◌, ◌==◌, ◌∷◌, [], true, length, if◌then◌else◌, IsTrue, ◌↔◌, OnOk, OnErr, IfOk};
ghost use Rattle.line_memory.specs.Line.{bank_load};
ghost use Rattle.room_model.specs.Writes.{taken_line, take_write, give_writes, write, is_full};
ghost use Rattle.incll_var.specs.Cells.{IsRunning, epoch_of};
ghost use Rattle.incll_var.specs.Plans.{IsPlanned};
ghost use Rattle.room_laws.specs.Stocks.{IsHeader};
ghost use Rattle.line_alloc.specs.Headers.{planned, IsPartlyPlanned, IsInNoChainOfMap, IsInNoChainOfQueue};

use crate::refusal::TakeRefusal;
use incll_var::{CellBank, Plan};
use room_model::{COUNT, FREE, FRESH, HEADER};
use std::alloc::AllocError;

/// Plans to take a line, and gives its number: the first free line, else the one at fresh. It is refused as full exactly
/// where no line is left. Refused, it leaves the plan as it was.
pub fn plan_take(cells: &CellBank, plan: &mut Plan) -> Result<u32, TakeRefusal>
    requires running { IsRunning cells.now.state }
    requires header { IsHeader (length cells.now.bank.lines) (bank_load cells.now.bank) }
    ensures full { (result ≡ Err TakeRefusal.Full) ↔ (is_full (length cells.now.bank.lines) (bank_load cells.now.bank) ≡ true) }
    ensures line { IfOk result (λ line. line ≡ taken_line (bank_load cells.now.bank)) }
    ensures within { IfOk result (λ line. line < length cells.now.bank.lines) }
    ensures map { IfOk result (λ line. IsInNoChainOfMap (length cells.now.bank.lines) (bank_load cells.now.bank) line) }
    ensures queue { IfOk result (λ line. IsInNoChainOfQueue (length cells.now.bank.lines) (bank_load cells.now.bank) line) }
    ensures stores { OnOk result (plan.new ≡ planned cells.now plan.old (take_write (bank_load cells.now.bank) ∷ [])) }
    ensures planned { IsPlanned (epoch_of cells.now.state) cells.now.bank.lines plan.old.stores → IsPlanned (epoch_of cells.now.state) cells.now.bank.lines plan.new.stores }
    ensures refused { OnErr result (plan.new ≡ plan.old) }
{
    let lines = cells.lines();
    let free = cells.load(HEADER, FREE);
    let fresh = cells.load(HEADER, FRESH);
    if free != 0 {
        let next = cells.load(free as u32, FREE);
        return take(cells, free as u32, FREE, next, plan);
    }
    if fresh == u64::from(lines) {
        return Err(TakeRefusal::Full);
    }
    take(cells, fresh as u32, FRESH, fresh + 1, plan)
}

/// Plans to give a line back, which no chain has any more: it becomes the first free one. Refused for want of memory, the
/// plan may have the first of the two writes, and is to be dropped.
pub fn plan_give(cells: &CellBank, line: u32, plan: &mut Plan) -> Result<(), AllocError>
    requires running { IsRunning cells.now.state }
    requires line { line < length cells.now.bank.lines }
    ensures stores { OnOk result (plan.new ≡ planned cells.now plan.old (give_writes (bank_load cells.now.bank) line)) }
    ensures planned { IsPlanned (epoch_of cells.now.state) cells.now.bank.lines plan.old.stores → IsPlanned (epoch_of cells.now.state) cells.now.bank.lines plan.new.stores }
    ensures refused { OnErr result (IsPartlyPlanned cells.now plan.old plan.new (give_writes (bank_load cells.now.bank) line)) }
{
    let free = cells.load(HEADER, FREE);
    cells.plan_write(line, FREE, free, plan)?;
    cells.plan_write(HEADER, FREE, u64::from(line), plan)
}

/// Plans the count of the header. Refused for want of memory, the plan is as it was.
pub fn plan_count(cells: &CellBank, count: u64, plan: &mut Plan) -> Result<(), AllocError>
    requires running { IsRunning cells.now.state }
    requires lines { 0 < length cells.now.bank.lines }
    ensures stores { OnOk result (plan.new ≡ planned cells.now plan.old (write 0 2 count ∷ [])) }
    ensures planned { IsPlanned (epoch_of cells.now.state) cells.now.bank.lines plan.old.stores → IsPlanned (epoch_of cells.now.state) cells.now.bank.lines plan.new.stores }
    ensures refused { OnErr result (plan.new ≡ plan.old) }
{
    cells.plan_write(HEADER, COUNT, count, plan)
}

/// Plans the write of this word of the header by which this line is taken, and gives the line.
fn take(
    cells: &CellBank,
    line: u32,
    word: u32,
    value: u64,
    plan: &mut Plan,
) -> Result<u32, TakeRefusal>
    requires running { IsRunning cells.now.state }
    requires lines { 0 < length cells.now.bank.lines }
    requires word { word < 3 }
    ensures line { IfOk result (λ taken. taken ≡ line) }
    ensures stores { OnOk result (plan.new ≡ planned cells.now plan.old (write 0 word value ∷ [])) }
    ensures planned { IsPlanned (epoch_of cells.now.state) cells.now.bank.lines plan.old.stores → IsPlanned (epoch_of cells.now.state) cells.now.bank.lines plan.new.stores }
    ensures memory { OnErr result (result ≡ Err TakeRefusal.OutOfMemory) }
    ensures refused { OnErr result (plan.new ≡ plan.old) }
{
    match cells.plan_write(HEADER, word, value, plan) {
        Ok(()) => Ok(line),
        Err(_) => Err(TakeRefusal::OutOfMemory),
    }
}
