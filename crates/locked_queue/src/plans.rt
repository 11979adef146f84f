//! The plans of the queue's commands. All words are read from the cells, as they were before the first store of the plan, and
//! nothing is stored here. Refused for want of memory, a call may leave a part of its stores in the plan.

ghost use Rattle.std.specs.Prelude.{◌≡◌, ◌≢◌, ◌<◌, ◌≤◌, ◌+◌, ◌-◌, ◌∷◌, ◌++◌, [], length, OnOk, IfOk};
ghost use Rattle.line_memory.specs.Line.{bank_load};
ghost use Rattle.seq_object.specs.Sizes.{sizes_of};
ghost use Rattle.seq_object.specs.Object.{room_of};
ghost use Rattle.room_model.specs.MapRoom.{live_layout};
ghost use Rattle.room_model.specs.Writes.{write, writes_of, answer_of, enq_writes, link_writes, deq_writes, deq_item, first_writes};
ghost use Rattle.incll_var.specs.Cells.{IsRunning};
ghost use Rattle.line_alloc.specs.Headers.{planned};
ghost use Rattle.locked_queue.specs.Plans.{MayPlan};

use incll_var::{CellBank, Plan};
use line_alloc::{TakeRefusal, plan_count, plan_give, plan_take};
use room_model::{COUNT, HEADER, Write};
use seq_object::{Command, Reply, Settings};
use std::alloc::AllocError;

/// The line of the ends.
const ENDS: u32 = 1;
/// The word of the ends that names the first node, and 0 where the queue is empty.
const FIRST: u32 = 0;
/// The word of the ends that names the last node, and 0 where the queue is empty.
const LAST: u32 = 1;
/// The word of a node that has its item.
const ITEM: u32 = 0;
/// The word of a node that names the next one, and 0 in the last.
const NEXT: u32 = 1;

/// Plans a command of the queue, and gives what the room answers to it: nothing to a take where the queue is empty, and nothing
/// is planned then. A command of the map never comes here.
pub(crate) fn plan_command(
    settings: Settings,
    cells: &CellBank,
    command: Command,
    plan: &mut Plan,
) -> Result<Option<Reply>, AllocError>
    requires room { MayPlan (sizes_of settings) cells.now }
    requires queue { room_of (sizes_of settings) command ≡ settings.shards }
    ensures answer { IfOk result (λ answer. answer ≡ answer_of live_layout (sizes_of settings) (bank_load cells.now.bank) command) }
    ensures stores { OnOk result (plan.new ≡ planned cells.now plan.old (writes_of live_layout (sizes_of settings) (bank_load cells.now.bank) command)) }
{
    match command {
        Command::Enq(value) => Ok(Some(plan_enq(settings, cells, value, plan)?)),
        Command::Deq => match plan_deq(settings, cells, plan)? {
            Some(reply) => Ok(Some(reply)),
            None => Ok(Some(Reply::Empty)),
        },
        Command::Take => plan_deq(settings, cells, plan),
        Command::Put(_, _) => unreachable!(),
        Command::Get(_) => unreachable!(),
        Command::Del(_) => unreachable!(),
    }
}

/// Plans an item at the back, where a line is left for it, and gives the reply.
fn plan_enq(
    settings: Settings,
    cells: &CellBank,
    value: u64,
    plan: &mut Plan,
) -> Result<Reply, AllocError>
    requires { MayPlan (sizes_of settings) cells.now }
    ensures reply { IfOk result (λ reply. answer_of live_layout (sizes_of settings) (bank_load cells.now.bank) (Command.Enq value) ≡ Some reply) }
    ensures stores { OnOk result (plan.new ≡ planned cells.now plan.old (enq_writes (sizes_of settings) (bank_load cells.now.bank) value)) }
{
    match plan_take(cells, plan) {
        Ok(line) => {
            plan_node(cells, line, value, plan)?;
            Ok(Reply::Done)
        }
        Err(TakeRefusal::Full) => Ok(Reply::Full),
        Err(TakeRefusal::OutOfMemory) => Err(AllocError),
    }
}

/// Plans the writes that make this line the last node, with this item, and count it.
fn plan_node(cells: &CellBank, line: u32, value: u64, plan: &mut Plan) -> Result<(), AllocError>
    requires running { IsRunning cells.now.state }
    requires lines { 2 ≤ length cells.now.bank.lines }
    requires line { line < length cells.now.bank.lines }
    requires last { bank_load cells.now.bank 1 1 < length cells.now.bank.lines }
    requires count { bank_load cells.now.bank 0 2 < length cells.now.bank.lines }
    ensures { OnOk result (plan.new ≡ planned cells.now plan.old (write line 0 value ∷ write line 1 0 ∷ link_writes (bank_load cells.now.bank) line ++ write 0 2 (bank_load cells.now.bank 0 2 + 1) ∷ [])) }
{
    let _lines = cells.lines();
    let count = cells.load(HEADER, COUNT);
    plan_pair(cells, at(line, ITEM, value), at(line, NEXT, 0), plan)?;
    plan_link(cells, line, plan)?;
    plan_count(cells, count + 1, plan)
}

/// Plans the writes that put this line behind the last node, or that make it both ends of an empty queue.
fn plan_link(cells: &CellBank, line: u32, plan: &mut Plan) -> Result<(), AllocError>
    requires running { IsRunning cells.now.state }
    requires lines { 2 ≤ length cells.now.bank.lines }
    requires last { bank_load cells.now.bank 1 1 < length cells.now.bank.lines }
    ensures { OnOk result (plan.new ≡ planned cells.now plan.old (link_writes (bank_load cells.now.bank) line)) }
{
    let _lines = cells.lines();
    let node = u64::from(line);
    let last = cells.load(ENDS, LAST) as u32;
    if cells.load(ENDS, FIRST) == 0 {
        plan_pair(cells, at(ENDS, FIRST, node), at(ENDS, LAST, node), plan)
    } else {
        plan_pair(cells, at(last, NEXT, node), at(ENDS, LAST, node), plan)
    }
}

/// Plans to take the front item off, and gives the reply with it, where there is one.
fn plan_deq(
    settings: Settings,
    cells: &CellBank,
    plan: &mut Plan,
) -> Result<Option<Reply>, AllocError>
    requires { MayPlan (sizes_of settings) cells.now }
    ensures answer { IfOk result (λ answer. answer ≡ answer_of live_layout (sizes_of settings) (bank_load cells.now.bank) Command.Take) }
    ensures stores { OnOk result (plan.new ≡ planned cells.now plan.old (deq_writes (bank_load cells.now.bank))) }
{
    let first = cells.load(ENDS, FIRST) as u32;
    if first == 0 {
        return Ok(None);
    }
    plan_unlink(cells, first, plan)?;
    Ok(Some(Reply::Found(cells.load(first, ITEM))))
}

/// Plans the writes that take this line, the first node, out of the queue, give it back and count one item less.
fn plan_unlink(cells: &CellBank, first: u32, plan: &mut Plan) -> Result<(), AllocError>
    requires running { IsRunning cells.now.state }
    requires lines { 2 ≤ length cells.now.bank.lines }
    requires first { first ≡ bank_load cells.now.bank 1 0 }
    requires within { first < length cells.now.bank.lines }
    requires some { 0 < bank_load cells.now.bank 0 2 }
    ensures { OnOk result (plan.new ≡ planned cells.now plan.old (deq_item (bank_load cells.now.bank))) }
{
    let count = cells.load(HEADER, COUNT);
    plan_first(cells, first, plan)?;
    plan_give(cells, first, plan)?;
    plan_count(cells, count - 1, plan)
}

/// Plans the writes that make the node behind this line the first one; where there is none, the queue has no ends.
fn plan_first(cells: &CellBank, first: u32, plan: &mut Plan) -> Result<(), AllocError>
    requires running { IsRunning cells.now.state }
    requires lines { 2 ≤ length cells.now.bank.lines }
    requires first { first < length cells.now.bank.lines }
    ensures { OnOk result (plan.new ≡ planned cells.now plan.old (first_writes (bank_load cells.now.bank) first)) }
{
    let next = cells.load(first, NEXT);
    if next == 0 {
        plan_pair(cells, at(ENDS, FIRST, next), at(ENDS, LAST, 0), plan)
    } else {
        cells.plan_write(ENDS, FIRST, next, plan)
    }
}

/// Plans two writes, in order.
fn plan_pair(cells: &CellBank, one: Write, two: Write, plan: &mut Plan) -> Result<(), AllocError>
    requires running { IsRunning cells.now.state }
    requires one_line { one.line < length cells.now.bank.lines }
    requires one_word { one.word < 3 }
    requires two_line { two.line < length cells.now.bank.lines }
    requires two_word { two.word < 3 }
    ensures { OnOk result (plan.new ≡ planned cells.now plan.old (one ∷ two ∷ [])) }
{
    cells.plan_write(one.line, one.word, one.value, plan)?;
    cells.plan_write(two.line, two.word, two.value, plan)
}

/// The write of a value into a word of a line.
fn at(line: u32, word: u32, value: u64) -> Write
    ensures { result ≡ write line word value }
{
    Write { line, word, value }
}
