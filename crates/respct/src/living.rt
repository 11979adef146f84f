//! Leads the life of a script, and tells it as a report.

ghost use Rattle.std.specs.Prelude.{◌≡◌, [], IfOk, OnErr};
ghost use Rattle.room_model.specs.Image.{image_of, nothing_kept};
ghost use Rattle.power_cut.specs.Image.{HaveWords};
ghost use Rattle.life_model.specs.declared.life.Life.TheVariants.{Resume};
ghost use Rattle.script_text.specs.Program.{program_of, turns_of};
ghost use Rattle.script_text.specs.ReportText.{report_of};
ghost use Rattle.script_text.specs.Schedules.{AreScheduled};
ghost use Rattle.script_text.specs.Text.{HasText};
ghost use Rattle.script_run.specs.Jobs.{IsReady};
ghost use Rattle.respct.specs.Steps.{IsReportOver};

use life_model::Life;
use line_memory::Memory;
use script_run::replay_job;
use script_text::{Report, Script};
use std::alloc::{AllocError, Global};

/// Leads the life of a script over memory that is ready for it, each turn of the thread that the script's schedule names. `memory` is then what
/// the life left; where memory runs out before the life is told, it is empty.
pub fn live(
    alloc: Global,
    script: &Script,
    life: Life,
    memory: &mut Memory,
) -> Result<Report, AllocError>
    requires script { HasText (program_of script.now) }
    requires scheduled { AreScheduled (turns_of script.now.mode) }
    requires ready { IsReady life script.now.settings (program_of script.now).threads memory.old }
    requires words { life ≡ Resume → HaveWords (image_of memory.old nothing_kept) }
    ensures told { IfOk result (λ report. IsReportOver life (program_of script.now) memory.old (report_of report) memory.new) }
    ensures refused { OnErr result (memory.new ≡ []) }
{
    let report = replay_job(alloc, script, life, memory)?;
    Ok(report)
}
