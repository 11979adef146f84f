//! The plans of the commands of a map room: what is read, which reply follows, and which stores are planned. All words are
//! read as they are before the first store.

ghost use Rattle.std.specs.Prelude.{◌≡◌, ◌≢◌, ◌+◌, ◌<◌, ◌∷◌, [], length, OnOk, IfOk};
ghost use Rattle.line_memory.specs.Line.{bank_load};
ghost use Rattle.seq_object.specs.Sizes.{sizes_of};
ghost use Rattle.seq_object.specs.Object.{room_of};
ghost use Rattle.room_model.specs.MapRoom.{layout_of, bucket_of};
ghost use Rattle.room_model.specs.Writes.{write, unlink_write, answer_of};
ghost use Rattle.incll_var.specs.Cells.{IsRunning};
ghost use Rattle.line_alloc.specs.Headers.{planned};
ghost use Rattle.locked_map.specs.Plans.{MayPlan, IsPlace, IsPlanOf};

use crate::find::{Place, place_of};
use crate::node::{KEY, NEXT, VALUE};
use incll_var::{CellBank, Plan};
use line_alloc::{TakeRefusal, plan_count, plan_give, plan_take};
use room_model::{COUNT, HEADER, Heads};
use seq_object::{Command, Reply, Settings};
use std::alloc::AllocError;

/// Plans a command in a room with its heads there, and gives its reply. Refused, for want of memory, the plan is to be dropped.
pub(crate) fn plan_command(
    heads: Heads,
    settings: Settings,
    cells: &CellBank,
    command: Command,
    plan: &mut Plan,
) -> Result<Reply, AllocError>
    requires room { MayPlan (layout_of heads) (sizes_of settings) cells.now }
    requires map { room_of (sizes_of settings) command < settings.shards }
    ensures { IfOk result (λ reply. IsPlanOf (layout_of heads) (sizes_of settings) cells.now plan.old plan.new command reply) }
{
    match command {
        Command::Put(key, value) => plan_put(heads, settings, cells, key, value, plan),
        Command::Get(key) => Ok(reply_to_get(heads, settings, cells, key)),
        Command::Del(key) => plan_del(heads, settings, cells, key, plan),
        Command::Enq(_) => unreachable!(),
        Command::Deq => unreachable!(),
        Command::Take => unreachable!(),
    }
}

/// Plans to set the value of a key.
fn plan_put(
    heads: Heads,
    settings: Settings,
    cells: &CellBank,
    key: u64,
    value: u64,
    plan: &mut Plan,
) -> Result<Reply, AllocError>
    requires { MayPlan (layout_of heads) (sizes_of settings) cells.now }
    ensures { IfOk result (λ reply. IsPlanOf (layout_of heads) (sizes_of settings) cells.now plan.old plan.new (Command.Put key value) reply) }
{
    let place = place_of(heads, settings, cells, key);
    if place.node == 0 {
        return plan_new(heads, settings, cells, &place, key, value, plan);
    }
    let old = cells.load(place.node, VALUE);
    cells.plan_write(place.node, VALUE, value, plan)?;
    Ok(Reply::Old(old))
}

/// Plans a node for a key that has none, where a line is left.
fn plan_new(
    heads: Heads,
    settings: Settings,
    cells: &CellBank,
    place: &Place,
    key: u64,
    value: u64,
    plan: &mut Plan,
) -> Result<Reply, AllocError>
    requires room { MayPlan (layout_of heads) (sizes_of settings) cells.now }
    requires place { IsPlace (layout_of heads) (sizes_of settings) (bank_load cells.now.bank) key place.now }
    requires none { place.now.node ≡ 0 }
    ensures { IfOk result (λ reply. IsPlanOf (layout_of heads) (sizes_of settings) cells.now plan.old plan.new (Command.Put key value) reply) }
{
    match plan_take(cells, plan) {
        Ok(line) => {
            plan_node(cells, line, place, key, value, plan)?;
            Ok(Reply::New)
        }
        Err(TakeRefusal::Full) => Ok(Reply::Full),
        Err(TakeRefusal::OutOfMemory) => Err(AllocError),
    }
}

/// Plans this line to be the first node of its bucket, with this key and value, and one key more.
fn plan_node(
    cells: &CellBank,
    line: u32,
    place: &Place,
    key: u64,
    value: u64,
    plan: &mut Plan,
) -> Result<(), AllocError>
    requires running { IsRunning cells.now.state }
    requires line { line < length cells.now.bank.lines }
    requires head { place.now.head_line < length cells.now.bank.lines }
    requires word { place.now.head_word < 3 }
    requires count { bank_load cells.now.bank 0 2 < length cells.now.bank.lines }
    ensures { OnOk result (plan.new ≡ planned cells.now plan.old (write line 0 key ∷ write line 1 value ∷ write line 2 place.now.first ∷ write place.now.head_line place.now.head_word line ∷ write 0 2 (bank_load cells.now.bank 0 2 + 1) ∷ [])) }
{
    let _lines = cells.lines();
    let count = cells.load(HEADER, COUNT);
    cells.plan_write(line, KEY, key, plan)?;
    cells.plan_write(line, VALUE, value, plan)?;
    cells.plan_write(line, NEXT, place.first, plan)?;
    cells.plan_write(place.head_line, place.head_word, u64::from(line), plan)?;
    plan_count(cells, count + 1, plan)
}

/// What the room replies to a look at a key. Nothing is planned for it.
fn reply_to_get(heads: Heads, settings: Settings, cells: &CellBank, key: u64) -> Reply
    requires { MayPlan (layout_of heads) (sizes_of settings) cells.now }
    ensures { answer_of (layout_of heads) (sizes_of settings) (bank_load cells.now.bank) (Command.Get key) ≡ Some result }
{
    let place = place_of(heads, settings, cells, key);
    if place.node == 0 {
        return Reply::Absent;
    }
    Reply::Found(cells.load(place.node, VALUE))
}

/// Plans to remove a key.
fn plan_del(
    heads: Heads,
    settings: Settings,
    cells: &CellBank,
    key: u64,
    plan: &mut Plan,
) -> Result<Reply, AllocError>
    requires { MayPlan (layout_of heads) (sizes_of settings) cells.now }
    ensures { IfOk result (λ reply. IsPlanOf (layout_of heads) (sizes_of settings) cells.now plan.old plan.new (Command.Del key) reply) }
{
    let place = place_of(heads, settings, cells, key);
    if place.node == 0 {
        return Ok(Reply::Absent);
    }
    let value = cells.load(place.node, VALUE);
    let count = cells.load(HEADER, COUNT);
    plan_unlink(heads, settings, cells, &place, key, plan)?;
    plan_give(cells, place.node, plan)?;
    plan_count(cells, count - 1, plan)?;
    Ok(Reply::Gone(value))
}

/// Plans to take the node of a key out of its chain.
fn plan_unlink(
    heads: Heads,
    settings: Settings,
    cells: &CellBank,
    place: &Place,
    key: u64,
    plan: &mut Plan,
) -> Result<(), AllocError>
    requires room { MayPlan (layout_of heads) (sizes_of settings) cells.now }
    requires place { IsPlace (layout_of heads) (sizes_of settings) (bank_load cells.now.bank) key place.now }
    requires some { place.now.node ≢ 0 }
    ensures { OnOk result (plan.new ≡ planned cells.now plan.old (unlink_write (layout_of heads) (bank_load cells.now.bank) (bucket_of (sizes_of settings) key) place.now.before place.now.node ∷ [])) }
{
    let _shards = settings.shards;
    let next = cells.load(place.node, NEXT);
    if place.before == 0 {
        return cells.plan_write(place.head_line, place.head_word, next, plan);
    }
    cells.plan_write(place.before, NEXT, next, plan)
}
