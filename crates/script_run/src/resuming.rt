//! The whole replay of a resume.

ghost use Rattle.std.specs.Prelude.{◌≡◌, ◌≤◌, ◌<◌, ◌-◌, ◌^◌, ◌++◌, ◌∷◌, [], ℕ, IfOk, length, map, drop, slice_index, vec_capacity};
ghost use Rattle.std.specs.List.{All};
ghost use Rattle.seq_object.specs.Sizes.{sizes_of, IsValid};
ghost use Rattle.line_memory.specs.Line.{IsQuiet, all_write_backs, all_lines};
ghost use Rattle.room_model.specs.Image.{image_of, nothing_kept};
ghost use Rattle.life_model.specs.Life.{Opening, opening_place, lengths};
ghost use Rattle.life_model.specs.Told.{TellsOf};
ghost use Rattle.yard_model.specs.declared.view.Beginning.{Beginning};
ghost use Rattle.plain_yard.specs.Opening.{commands_in};
ghost use Rattle.room_yard.specs.World.{memory_of};
ghost use Rattle.recovery.specs.Told.{bare_report};
ghost use Rattle.script_text.specs.Program.{program_of, turns_of};
ghost use Rattle.script_text.specs.ReportText.{report_of};
ghost use Rattle.script_text.specs.Schedules.{schedule_of};
ghost use Rattle.script_text.specs.Text.{HasText};
ghost use Rattle.script_run.specs.Ends.{HasSpace};
ghost use Rattle.script_run.specs.Steps.{IsOrderIn};
ghost use Rattle.script_run.specs.Enough.{EndsWhereEnough, ClosesFew};
ghost use Rattle.script_run.specs.Jobs.{IsResumeOver, MayResume, recovery_mark, IsReplayOfResume};
ghost use Rattle.script_run.specs.Resumes.{IsPrepared, IsOpenedBy, RunsOrStarves};

use crate::ending::{Began, Ended, Space};
use crate::opening::{first_workers, lengths_of};
use crate::recovering::{BehindRecovery, recovered};
use crate::replay::Replay;
use crate::run::with_mark;
use life_model::{Mark, Outcome};
use line_memory::Memory;
use plain_yard::{NoYard, PlainYard};
use recovery::{Recovery, place_in};
use room_yard::World;
use script_text::{Report, Script};
use seq_object::{Command, Settings};
use std::alloc::{AllocError, Global};
use turn_order::TurnOrder;
use worker::Worker;

/// A resume before its first event, with all that it needs up to the making of its yard.
#[derive(Drop)]
struct Prepared {
    space: Space,
    /// No mark, and room for that of the recovery.
    marks: Vec<Mark>,
    /// How many commands each script has.
    lengths: Vec<u32>,
    workers: Vec<Worker>,
    recovery: Recovery,
}

/// What the replay of a resume leaves over memory that a power cut left. Want of memory before the first event is the one refusal.
pub(crate) fn resumed(alloc: Global, script: &Script, memory: Memory) -> Result<Ended, AllocError>
    requires script { HasText (program_of script.now) }
    requires ready { MayResume script.now.settings (program_of script.now).threads memory }
    ensures told { IfOk result (λ ended. (o : Opening) → IsResumeOver script.now.settings (program_of script.now).threads memory o → TellsOf o (image_of memory nothing_kept) 0 (report_of ended.report) ended.memory) }
    ensures run { IfOk result (λ ended. IsReplayOfResume script.now.settings (program_of script.now).threads (schedule_of script.now.settings.threads (turns_of script.now.mode)) memory (report_of ended.report) ended.memory) }
    ensures ends { IfOk result (λ ended. (o : Opening) → IsResumeOver script.now.settings (program_of script.now).threads memory o → EndsWhereEnough o (schedule_of script.now.settings.threads (turns_of script.now.mode)) (report_of ended.report).outcome) }
    ensures closes { IfOk result (λ ended. (o : Opening) → IsResumeOver script.now.settings (program_of script.now).threads memory o → ClosesFew o (report_of ended.report).entries (lengths (report_of ended.report).marks)) }
{
    let prepared = make_ready(alloc, memory, script.settings, script.threads.as_slice())?;
    let Prepared {
        space,
        marks,
        lengths,
        workers,
        recovery,
    } = prepared;
    let began = Began {
        resumed: true,
        epoch: recovery.epoch(),
    };
    let threads = script.settings.threads;
    let order = TurnOrder::of(threads, &script.mode);
    let BehindRecovery { recovery, order } = recovered(recovery, threads, &script.mode, order);
    if !recovery.is_finished() {
        return Ok(bare(
            recovery.into_memory(),
            began.epoch,
            marks,
            Outcome::Cut,
            space,
        ));
    }
    let marks = with_recovery_mark(marks, began.epoch);
    let world = recovery.into_world(lengths.as_slice());
    Ok(run_in(alloc, script, world, workers, order, marks, began, space))
}

/// Makes a resume ready. Want of memory is the one refusal; the memory is then given up.
fn make_ready(
    alloc: Global,
    memory: Memory,
    settings: Settings,
    scripts: &[Vec<Command>],
) -> Result<Prepared, AllocError>
    requires valid { IsValid settings }
    requires scripts { length scripts.now ≡ settings.threads }
    requires short { All (λ s. length s.items ≤ 4096) scripts.now }
    requires few { commands_in (map (λ s. s.items) scripts.now) < 2 ^ 32 }
    requires ready { MayResume settings (map (λ s. s.items) scripts.now) memory }
    ensures { IfOk result (λ prepared. IsPrepared settings (map (λ s. s.items) scripts.now) memory prepared) }
{
    let space = Space::of(alloc, settings, scripts)?;
    let marks = Vec::with_capacity(alloc, 1)?;
    let lengths = lengths_of(alloc, scripts)?;
    let places = places_in(alloc, &memory, settings, scripts)?;
    let workers = first_workers(alloc, settings, scripts, places.as_slice())?;
    let recovery = Recovery::of(alloc, memory, settings)?;
    Ok(Prepared {
        space,
        marks,
        lengths,
        workers,
        recovery,
    })
}

/// The places in their scripts from which threads go on that resume from a memory.
fn places_in(
    alloc: Global,
    memory: &Memory,
    settings: Settings,
    scripts: &[Vec<Command>],
) -> Result<Vec<u32>, AllocError>
    requires valid { IsValid settings }
    requires scripts { length scripts.now ≡ settings.threads }
    requires short { All (λ s. length s.items ≤ 4096) scripts.now }
    requires ready { MayResume settings (map (λ s. s.items) scripts.now) memory.now }
    ensures number { IfOk result (λ places. length places.items ≡ settings.threads) }
    ensures places { IfOk result (λ places. (o : Opening) → IsResumeOver settings (map (λ s. s.items) scripts.now) memory.now o → (i : ℕ) → i < settings.threads → opening_place o i ≡ slice_index places.items i) }
{
    let _scripts = scripts;
    let mut places = Vec::new(alloc);
    for thread in 0..settings.threads {
        places.push(place_in(memory, settings, thread) as u32)?;
    }
    Ok(places)
}

/// The mark of a recovery of an image of this epoch, in an empty list that has room for it.
fn with_recovery_mark(marks: Vec<Mark>, epoch: u32) -> Vec<Mark>
    requires room { length marks.items < vec_capacity marks }
    requires fits { epoch < 2 ^ 32 - 1 }
    ensures { result.items ≡ marks.items ++ recovery_mark epoch ∷ [] }
{
    with_mark(
        marks,
        Some(Mark {
            epoch: epoch + 1,
            length: 0,
        }),
    )
}

/// The report of a resume that drew no entry and holds no room, beside the memory that it leaves. It takes no memory.
fn bare(memory: Memory, epoch: u32, marks: Vec<Mark>, outcome: Outcome, space: Space) -> Ended
    requires entries { space.entries.items ≡ [] }
    requires numbers { space.numbers.items ≡ [] }
    ensures report { report_of result.report ≡ bare_report epoch marks.items (all_write_backs memory) outcome }
    ensures memory { result.memory ≡ memory }
{
    let Space { entries, numbers } = space;
    Ended {
        report: Report {
            resumed: true,
            began: epoch,
            entries,
            marks,
            held: numbers,
            flushed: memory.write_backs(),
            outcome,
        },
        memory,
    }
}

/// Makes the yard of a recovered world, and gives its workers the turns that the order has left. Where memory runs out before the yard is made,
/// the memory is left as the recovery has it.
fn run_in(
    alloc: Global,
    script: &Script,
    world: World,
    workers: Vec<Worker>,
    order: TurnOrder,
    marks: Vec<Mark>,
    began: Began,
    space: Space,
) -> Ended
    requires script { HasText (program_of script.now) }
    requires opened { (b : Beginning) × IsOpenedBy script.now.settings (program_of script.now).threads world workers.items marks.items began b }
    requires fits { (length world.rooms < 2 ^ 32) × (all_lines (memory_of world.rooms) < 2 ^ 32) }
    requires order { IsOrderIn script.now.settings.threads (turns_of script.now.mode) order }
    requires space { HasSpace script.now.settings (program_of script.now).threads space }
    ensures { RunsOrStarves script.now.settings (program_of script.now).threads (drop order.given (schedule_of script.now.settings.threads (turns_of script.now.mode))) world workers.items marks.items began (report_of result.report) result.memory }
{
    let threads = script.settings.threads;
    match PlainYard::of(alloc, world, script.settings, script.threads.as_slice()) {
        Err(NoYard { world }) => bare(world.memory(), began.epoch, marks, Outcome::Starved, space),
        Ok(yard) => Replay { yard, workers }
            .run(threads, &script.mode, order, marks)
            .end(began, space),
    }
}
