//! The first turns of a resume: the events of its recovery.

ghost use Rattle.std.specs.Prelude.{◌≡◌, ◌<◌};
ghost use Rattle.script_text.specs.Program.{turns_of};
ghost use Rattle.script_run.specs.Steps.{IsOrderIn};
ghost use Rattle.script_run.specs.Recovers.{IsRecoveredBy};

use recovery::{RecoverStep, Recovery};
use script_text::Mode;
use turn_order::TurnOrder;

/// A recovery, and the turns that are left behind those that it had.
#[derive(Drop)]
pub(crate) struct BehindRecovery {
    pub(crate) recovery: Recovery,
    pub(crate) order: TurnOrder,
}

/// Gives the turns of this order to a recovery, an event each, whichever threads they name, until it is finished or the turns are spent. It
/// takes no memory.
pub(crate) fn recovered(
    recovery: Recovery,
    threads: u32,
    mode: &Mode,
    order: TurnOrder,
) -> BehindRecovery
    requires threads { 0 < threads }
    requires order { IsOrderIn threads (turns_of mode.now) order }
    requires none { order.given ≡ 0 }
    ensures { IsRecoveredBy threads (turns_of mode.now) recovery result.recovery result.order }
{
    let mut recovery = recovery;
    let mut order = order;
    while !recovery.is_finished() {
        let Some(_thread) = order.next(mode) else {
            break;
        };
        let (RecoverStep::Did | RecoverStep::Finished) = recovery.step();
    }
    BehindRecovery { recovery, order }
}
