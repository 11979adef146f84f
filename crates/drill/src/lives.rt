//! The nine lives of a drill: a start over formatted memory, and eight resumes, each from the image that the cut behind the life before leaves.

ghost use Rattle.std.specs.Prelude.{◌≡◌, ◌≢◌, ◌⊎◌, ◌+◌, ◌<◌, ◌≤◌, [], IfOk, OnOk, OnErr};
ghost use Rattle.seq_object.specs.Sizes.{sizes_of};
ghost use Rattle.room_model.specs.MapRoom.{live_layout};
ghost use Rattle.room_model.specs.Image.{image_of, nothing_kept, IsLawful};
ghost use Rattle.life_model.specs.declared.life.Outcome.{Outcome};
ghost use Rattle.life_model.specs.declared.life.Outcome.TheVariants.{Finished, Starved};
ghost use Rattle.power_cut.specs.Cut.{choosing};
ghost use Rattle.power_cut.specs.Image.{rooms_in, IsWhole};
ghost use Rattle.image_check.specs.Recovered.{IsRecovered};
ghost use Rattle.script_text.specs.Program.{program_of, turns_of};
ghost use Rattle.script_text.specs.Schedules.{AreScheduled};
ghost use Rattle.script_text.specs.Text.{HasText};
ghost use Rattle.script_run.specs.Jobs.{IsReady};
ghost use Rattle.drill.specs.Scripts.{drill_settings, drill_commands, drill_choice, drill_program};
ghost use Rattle.drill.specs.Lives.{kind_of_life, drill_memory, memory_behind, HasLived, IsLivedOver, IsLeftAtWant, HoldsAllCommands, IsSummaryOf};

use crate::scripts::{LAST_LIFE, drill_script, keep_behind, settings};
use crate::summary::{Summary, summary_of};
use formatting::format;
use image_check::{Recovered, check_image};
use life_model::{Life, Outcome};
use line_memory::Memory;
use power_cut::{Image, ReadImageRefusal, cut, image_memory};
use script_run::replay_job;
use script_text::Script;
use std::alloc::{AllocError, Global};
use store_order::Choice;

/// Runs the drill of this number, and sums up what is left. `memory` is given up first, and is then what the last life left, whatever is
/// pending in it; the summary is that of its base. Its last life is finished, and all 800 commands are kept. Want of memory is the one
/// refusal, also where a life meets it: `memory` is then empty, or what the last life left that was begun.
pub fn run_drill(alloc: Global, n: u64, memory: &mut Memory) -> Result<Summary, AllocError>
    ensures told { IfOk result (λ summary. IsSummaryOf n memory.new summary) }
    // the last life has turns enough, so no command is left undone
    ensures kept { IfOk result (λ summary. (summary.kept ≡ 800) × (summary.outcome ≡ Finished)) }
    // and what is left is what one history of all commands leaves
    ensures held { OnOk result (HoldsAllCommands n memory.new) }
    ensures refused { OnErr result (IsLeftAtWant n memory.new) }
{
    let outcome = live_all(alloc, n, memory)?;
    let found = recovered(alloc, memory)?;
    Ok(summary_of(n, outcome, &found))
}

/// Lives the nine lives.
fn live_all(alloc: Global, n: u64, memory: &mut Memory) -> Result<Outcome, AllocError>
    ensures lived { IfOk result (λ outcome. HasLived n 8 outcome memory.new) }
    ensures fed { IfOk result (λ outcome. outcome ≢ Starved) }
    ensures refused { OnErr result (IsLeftAtWant n memory.new) }
{
    *memory = Memory::empty(alloc);
    let mut outcome = live_first(alloc, n, memory)?;
    for before in 0..LAST_LIFE {
        outcome = live_next(alloc, n, before, memory)?;
    }
    Ok(outcome)
}

/// The first life: a start over formatted memory.
fn live_first(alloc: Global, n: u64, memory: &mut Memory) -> Result<Outcome, AllocError>
    requires { memory.old ≡ [] }
    ensures lived { IfOk result (λ outcome. HasLived n 0 outcome memory.new) }
    ensures fed { IfOk result (λ outcome. outcome ≢ Starved) }
    ensures refused { OnErr result (IsLeftAtWant n memory.new) }
{
    let script = drill_script(alloc, n, 0)?;
    *memory = formatted(alloc)?;
    live(alloc, n, 0, &script, Life::Start, memory)
}

/// The memory with which a drill begins.
fn formatted(alloc: Global) -> Result<Memory, AllocError>
    ensures { IfOk result (λ memory. memory ≡ drill_memory) }
{
    format(alloc, &settings())
}

/// The life that follows the one with this number, which left this memory: a resume from the image that the cut behind that one leaves.
fn live_next(alloc: Global, n: u64, before: u32, memory: &mut Memory) -> Result<Outcome, AllocError>
    requires before { before < 8 }
    requires lived { (outcome : Outcome) × HasLived n before outcome memory.old }
    ensures lived { IfOk result (λ outcome. HasLived n (before + 1) outcome memory.new) }
    ensures fed { IfOk result (λ outcome. outcome ≢ Starved) }
    ensures refused { OnErr result (IsLeftAtWant n memory.new) }
{
    let script = drill_script(alloc, n, before + 1)?;
    *memory = remade(alloc, n, before, memory)?;
    live(alloc, n, before + 1, &script, Life::Resume, memory)
}

/// The memory of the image that the cut behind a life leaves of its memory.
fn remade(alloc: Global, n: u64, life: u32, left: &Memory) -> Result<Memory, AllocError>
    requires life { life < 8 }
    requires lawful { IsLawful live_layout (sizes_of drill_settings) (image_of left.now nothing_kept) }
    ensures { IfOk result (λ memory. memory ≡ memory_behind n life left.now) }
{
    let image = cut(alloc, left, &settings(), &keep_behind(n, life))?;
    image_memory(alloc, image)
}

/// Carries a life out over a memory that is ready for it: this life of drill `n`, whose script and kind these are. One that starves is want of
/// memory too.
fn live(
    alloc: Global,
    n: u64,
    life: u32,
    script: &Script,
    kind: Life,
    memory: &mut Memory,
) -> Result<Outcome, AllocError>
    requires kind { kind ≡ kind_of_life life }
    requires program { program_of script.now ≡ drill_program n life }
    requires text { HasText (program_of script.now) }
    requires scheduled { AreScheduled (turns_of script.now.mode) }
    requires ready { IsReady kind drill_settings (drill_commands n) memory.old }
    ensures lived { IfOk result (λ outcome. IsLivedOver n life memory.old outcome memory.new) }
    ensures fed { IfOk result (λ outcome. outcome ≢ Starved) }
    ensures refused { OnErr result ((memory.new ≡ []) ⊎ (outcome : Outcome) × IsLivedOver n life memory.old outcome memory.new) }
{
    let report = replay_job(alloc, script, kind, memory)?;
    unless_starved(report.outcome)
}

/// The outcome of a life in which memory did not run out.
fn unless_starved(outcome: Outcome) -> Result<Outcome, AllocError>
    ensures { IfOk result (λ same. (same ≡ outcome) × (same ≢ Starved)) }
{
    match outcome {
        Outcome::Starved => Err(AllocError),
        _ => Ok(outcome),
    }
}

/// What a memory recovers to without what is pending in it.
fn recovered(alloc: Global, memory: &Memory) -> Result<Recovered, AllocError>
    requires { IsLawful live_layout (sizes_of drill_settings) (image_of memory.now nothing_kept) }
    ensures { IfOk result (λ found. IsRecovered live_layout (sizes_of drill_settings) (image_of memory.now nothing_kept) found) }
{
    let image = cut(alloc, memory, &settings(), &Choice::Nothing)?;
    match check_image(alloc, &image) {
        Ok(found) => Ok(found),
        Err(ReadImageRefusal::OutOfMemory) => Err(AllocError),
        Err(ReadImageRefusal::Fault(_)) => unreachable!(),
    }
}
