//! The whole replay of a job.

ghost use Rattle.std.specs.Prelude.{◌≡◌, [], IfOk, OnErr};
ghost use Rattle.seq_object.specs.Sizes.{sizes_of};
ghost use Rattle.room_model.specs.Formatted.{formatted_memory};
ghost use Rattle.room_model.specs.Image.{image_of, nothing_kept};
ghost use Rattle.life_model.specs.Life.{Opening, start_of, lengths};
ghost use Rattle.life_model.specs.Told.{TellsOf};
ghost use Rattle.script_text.specs.Program.{program_of, turns_of};
ghost use Rattle.script_text.specs.ReportText.{report_of};
ghost use Rattle.script_text.specs.Schedules.{AreScheduled, schedule_of};
ghost use Rattle.script_text.specs.Text.{HasText};
ghost use Rattle.script_run.specs.Starts.{IsReplayOf};
ghost use Rattle.script_run.specs.Enough.{EndsWhereEnough, ClosesFew};
ghost use Rattle.script_run.specs.Jobs.{IsReady, OpensOver, IsReplayedLife};

use crate::ending::{Began, Ended, Space};
use crate::replay::Replay;
use crate::resuming::resumed;
use life_model::Life;
use line_memory::Memory;
use room_model::FIRST_EPOCH;
use script_text::{Report, Script};
use std::alloc::{AllocError, Global};
use std::mem;
use turn_order::TurnOrder;

/// Carries a script out, in the interleaving that its turns state, and reports: as a start over formatted memory, or as a resume over memory
/// that a power cut left, in which nothing is pending and no write-back is counted. The first turns of a resume are the events of its recovery,
/// whichever threads they name; the later ones are its workers'. `memory` is what the life leaves, whatever is pending in it. Want of memory
/// before the first event is the one refusal; the memory is then empty. Where memory runs out later the report says `starved`.
pub fn replay_job(
    alloc: Global,
    script: &Script,
    life: Life,
    memory: &mut Memory,
) -> Result<Report, AllocError>
    requires script { HasText (program_of script.now) }
    requires replayed { AreScheduled (turns_of script.now.mode) }
    requires ready { IsReady life script.now.settings (program_of script.now).threads memory.old }
    // the report tells of each life of this script that opens so, and of the memory that it left
    ensures told { IfOk result (λ report. (o : Opening) → OpensOver life script.now.settings (program_of script.now).threads memory.old o → TellsOf o (image_of memory.old nothing_kept) 0 (report_of report) memory.new) }
    // it is that of the run under the script's schedule
    ensures run { IfOk result (λ report. IsReplayedLife life script.now.settings (program_of script.now).threads (schedule_of script.now.settings.threads (turns_of script.now.mode)) memory.old (report_of report) memory.new) }
    // enough rounds end it
    ensures ends { IfOk result (λ report. (o : Opening) → OpensOver life script.now.settings (program_of script.now).threads memory.old o → EndsWhereEnough o (schedule_of script.now.settings.threads (turns_of script.now.mode)) (report_of report).outcome) }
    // and it closes seldom
    ensures closes { IfOk result (λ report. (o : Opening) → OpensOver life script.now.settings (program_of script.now).threads memory.old o → ClosesFew o (report_of report).entries (lengths (report_of report).marks)) }
    ensures refused { OnErr result (memory.new ≡ []) }
{
    let handed = mem::replace(memory, Memory::empty(alloc));
    let Ended {
        report,
        memory: left,
    } = replayed(alloc, script, life, handed)?;
    *memory = left;
    Ok(report)
}

/// What the replay of a life leaves. Want of memory before the first event is the one refusal.
fn replayed(alloc: Global, script: &Script, life: Life, memory: Memory) -> Result<Ended, AllocError>
    requires script { HasText (program_of script.now) }
    requires ready { IsReady life script.now.settings (program_of script.now).threads memory }
    ensures told { IfOk result (λ ended. (o : Opening) → OpensOver life script.now.settings (program_of script.now).threads memory o → TellsOf o (image_of memory nothing_kept) 0 (report_of ended.report) ended.memory) }
    ensures run { IfOk result (λ ended. IsReplayedLife life script.now.settings (program_of script.now).threads (schedule_of script.now.settings.threads (turns_of script.now.mode)) memory (report_of ended.report) ended.memory) }
    ensures ends { IfOk result (λ ended. (o : Opening) → OpensOver life script.now.settings (program_of script.now).threads memory o → EndsWhereEnough o (schedule_of script.now.settings.threads (turns_of script.now.mode)) (report_of ended.report).outcome) }
    ensures closes { IfOk result (λ ended. (o : Opening) → OpensOver life script.now.settings (program_of script.now).threads memory o → ClosesFew o (report_of ended.report).entries (lengths (report_of ended.report).marks)) }
{
    match life {
        Life::Start => started(alloc, script, memory),
        Life::Resume => resumed(alloc, script, memory),
    }
}

/// What the replay of a start over formatted memory leaves. Want of memory before the first turn is the one refusal.
fn started(alloc: Global, script: &Script, memory: Memory) -> Result<Ended, AllocError>
    requires script { HasText (program_of script.now) }
    requires formatted { memory ≡ formatted_memory (sizes_of script.now.settings) }
    ensures told { IfOk result (λ ended. TellsOf (start_of script.now.settings (program_of script.now).threads) [] 0 (report_of ended.report) ended.memory) }
    ensures run { IfOk result (λ ended. IsReplayOf script.now.settings (program_of script.now).threads (schedule_of script.now.settings.threads (turns_of script.now.mode)) (report_of ended.report) ended.memory) }
    ensures ends { IfOk result (λ ended. EndsWhereEnough (start_of script.now.settings (program_of script.now).threads) (schedule_of script.now.settings.threads (turns_of script.now.mode)) (report_of ended.report).outcome) }
    ensures closes { IfOk result (λ ended. ClosesFew (start_of script.now.settings (program_of script.now).threads) (report_of ended.report).entries (lengths (report_of ended.report).marks)) }
{
    let scripts = script.threads.as_slice();
    let space = Space::of(alloc, script.settings, scripts)?;
    let replay = Replay::start(alloc, memory, script.settings, scripts)?;
    let threads = script.settings.threads;
    let order = TurnOrder::of(threads, &script.mode);
    let run = replay.run(threads, &script.mode, order, Vec::new(alloc));
    let began = Began {
        resumed: false,
        epoch: FIRST_EPOCH,
    };
    Ok(run.end(began, space))
}
