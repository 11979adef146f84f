//! The events of cells and their epoch: the next one at each stage, and the plan of writes.

ghost use Rattle.std.specs.Prelude.{◌≡◌, ◌+◌, ◌<◌, ◌^◌, [], length, OnOk, OnErr};
ghost use Rattle.line_memory.specs.Line.{bank_load};
ghost use Rattle.room_model.specs.EpochLine.{loaded_epoch};
ghost use Rattle.room_model.specs.Writes.{stores_behind, AreWithin};
ghost use Rattle.incll_var.specs.Cells.{IsRunning, epoch_of};
ghost use Rattle.incll_var.specs.Plans.{IsPlanned};
ghost use Rattle.epoch_cells.specs.Cells.{AreEpochCells, state_of};
ghost use Rattle.epoch_cells.specs.Events.{IsEvent, HasPlan};

use crate::stage::Stage;
use epoch_word::{SuperRoom, stage_laws};
use incll_var::{CellBank, Plan, RestoreStep};
use planned_cells::{CellRoom, PlannedCells};
use room_model::Write;
use std::alloc::AllocError;

/// Makes the event that comes next at this stage, and says which stage is then. Where the cells are open a store is left; a next epoch is
/// there.
pub(crate) fn next_event(cells: &mut PlannedCells, epoch: &mut SuperRoom, stage: Stage) -> Stage
    requires whole { AreEpochCells (state_of cells.old epoch.old stage) }
    requires left { stage ≡ Stage.Open → 0 < length cells.old.plan.stores }
    requires below { stage ≡ Stage.Fenced → loaded_epoch epoch.old + 1 < 2 ^ 32 }
    ensures { IsEvent (state_of cells.old epoch.old stage) (state_of cells.new epoch.new result) }
{
    stage_laws();
    match stage {
        Stage::Open => {
            cells.step();
            Stage::Open
        }
        Stage::WritingBack => {
            if cells.close_next() {
                Stage::WritingBack
            } else {
                Stage::WrittenBack
            }
        }
        Stage::WrittenBack => {
            cells.close_fence();
            Stage::Fenced
        }
        Stage::Fenced => {
            epoch.store_next();
            Stage::EpochStored
        }
        Stage::EpochStored => {
            epoch.write_back();
            Stage::EpochAsked
        }
        Stage::EpochAsked => {
            epoch.fence();
            cells.enter(epoch.epoch());
            Stage::Open
        }
        Stage::Restoring => match cells.restore_next() {
            RestoreStep::Finished => Stage::Fenced,
            _ => Stage::Restoring,
        },
    }
}

/// Plans the stores of these writes, and makes room for them. Want of memory is its one refusal; then none is planned.
pub(crate) fn plan_writes(cells: &mut PlannedCells, writes: &[Write]) -> Result<(), AllocError>
    requires running { IsRunning cells.old.cells.state }
    requires idle { cells.old.plan.stores ≡ [] }
    requires within { AreWithin (length cells.old.cells.bank.lines) writes.now }
    ensures ok { OnOk result (HasPlan cells.old cells.new (stores_behind (epoch_of cells.old.cells.state) (bank_load cells.old.cells.bank) [] writes.now)) }
    ensures refused { OnErr result (HasPlan cells.old cells.new []) }
{
    let mut plan = cells.take_plan();
    plan_each(cells.cells(), writes, &mut plan)?;
    cells.ready(&plan)?;
    cells.put_plan(plan);
    Ok(())
}

/// Plans these writes behind what is planned. Want of memory is its one refusal; then some of them may be planned.
fn plan_each(cells: &CellBank, writes: &[Write], plan: &mut Plan) -> Result<(), AllocError>
    requires running { IsRunning cells.now.state }
    requires within { AreWithin (length cells.now.bank.lines) writes.now }
    requires planned { IsPlanned (epoch_of cells.now.state) cells.now.bank.lines plan.old.stores }
    ensures stores { OnOk result (plan.new.stores ≡ stores_behind (epoch_of cells.now.state) (bank_load cells.now.bank) plan.old.stores writes.now) }
    ensures planned { OnOk result (IsPlanned (epoch_of cells.now.state) cells.now.bank.lines plan.new.stores) }
{
    for write in writes {
        cells.plan_write(write.line, write.word, write.value, plan)?;
    }
    Ok(())
}
