//! The replay of a start, before its first turn.

ghost use Rattle.std.specs.Prelude.{◌≡◌, ◌≤◌, ◌<◌, ◌^◌, ℕ, map, length, replicate, slice_index, IfOk};
ghost use Rattle.std.specs.List.{All};
ghost use Rattle.yard_model.specs.declared.view.Beginning.{Beginning};
ghost use Rattle.yard_model.specs.Beginnings.{opening_of};
ghost use Rattle.seq_object.specs.Sizes.{sizes_of, IsValid};
ghost use Rattle.room_model.specs.Formatted.{formatted_memory};
ghost use Rattle.room_yard.specs.World.{CanOpen, Begins, Opens, beginning_with};
ghost use Rattle.plain_yard.specs.Shown.{opening_told};
ghost use Rattle.replay_model.specs.Kept.{IsReplay};
ghost use Rattle.replay_progress.specs.Shown.{GoesOnRight};
ghost use Rattle.script_run.specs.Runs.{HaveDone};
ghost use Rattle.life_model.specs.Life.{Opening, script_of};
ghost use Rattle.script_run.specs.Starts.{IsStartOf, IsAtPlaces, AreFirstWorkers};

use crate::replay::Replay;
use fresh_world::fresh;
use line_memory::Memory;
use plain_yard::{NoYard, PlainYard};
use room_yard::World;
use seq_object::{Command, Settings};
use std::alloc::{AllocError, Global};
use worker::Worker;

impl Replay {
    /// The replay of a start of these scripts over formatted memory, of which no turn is made. Want of memory is the one refusal; the memory
    /// is then given up.
    pub(crate) fn start(
        alloc: Global,
        memory: Memory,
        settings: Settings,
        scripts: &[Vec<Command>],
    ) -> Result<Replay, AllocError>
        requires valid { IsValid settings }
        requires scripts { length scripts.now ≡ settings.threads }
        requires short { All (λ s. length s.items ≤ 4096) scripts.now }
        requires formatted { memory ≡ formatted_memory (sizes_of settings) }
        ensures start { IfOk result (λ replay. IsStartOf settings (map (λ s. s.items) scripts.now) replay) }
        ensures replay { IfOk result (λ replay. IsReplay replay) }
        ensures right { IfOk result (λ replay. GoesOnRight replay) }
        ensures none_done { IfOk result (λ replay. HaveDone 0 replay) }
    {
        let lengths = lengths_of(alloc, scripts)?;
        let places = first_places(alloc, settings.threads)?;
        let workers = first_workers(alloc, settings, scripts, places.as_slice())?;
        let world = fresh(alloc, memory, settings, &lengths)?;
        let yard = first_yard(alloc, world, settings, scripts)?;
        Ok(Replay { yard, workers })
    }
}

/// How many commands each script has.
pub(crate) fn lengths_of(alloc: Global, scripts: &[Vec<Command>]) -> Result<Vec<u32>, AllocError>
    requires short { All (λ s. length s.items ≤ 4096) scripts.now }
    ensures { IfOk result (λ lengths. lengths.items ≡ map (λ s. length s.items) scripts.now) }
{
    let mut lengths = Vec::new(alloc);
    for script in scripts {
        lengths.push(script.len() as u32)?;
    }
    Ok(lengths)
}

/// The first place of so many scripts.
fn first_places(alloc: Global, threads: u32) -> Result<Vec<u32>, AllocError>
    ensures { IfOk result (λ places. places.items ≡ replicate threads 0) }
{
    vec![in alloc; 0; threads as usize]
}

/// A worker for each thread, at its place of its script.
pub(crate) fn first_workers(
    alloc: Global,
    settings: Settings,
    scripts: &[Vec<Command>],
    places: &[u32],
) -> Result<Vec<Worker>, AllocError>
    requires valid { IsValid settings }
    requires scripts { length scripts.now ≡ settings.threads }
    requires places { length places.now ≡ settings.threads }
    requires short { All (λ s. length s.items ≤ 4096) scripts.now }
    requires within { (i : ℕ) → i < settings.threads → slice_index places.now i ≤ length (script_of (map (λ s. s.items) scripts.now) i) }
    ensures { IfOk result (λ workers. (o : Opening) → IsAtPlaces settings (map (λ s. s.items) scripts.now) places.now o → AreFirstWorkers o settings.threads workers.items) }
{
    let mut workers = Vec::new(alloc);
    for thread in 0..settings.threads {
        let place = places[thread as usize];
        workers.push(Worker::new(alloc, thread, &scripts[thread as usize], place, settings)?)?;
    }
    Ok(workers)
}

/// The yard of a world. Want of memory is the one refusal; the world is then given up.
fn first_yard(
    alloc: Global,
    world: World,
    settings: Settings,
    scripts: &[Vec<Command>],
) -> Result<PlainYard, AllocError>
    requires opens { CanOpen settings (map (λ s. s.items) scripts.now) (2 ^ 63) world }
    ensures beginning { IfOk result (λ yard. yard.beginning ≡ beginning_with settings (map (λ s. s.items) scripts.now) (2 ^ 63) world) }
    ensures opens { (b : Beginning) → Begins settings (map (λ s. s.items) scripts.now) (2 ^ 63) b → Opens b world → IfOk result (λ yard. (opening_of yard.beginning ≡ opening_of b) × Opens yard.beginning world) }
    ensures told { IfOk result (λ yard. yard.told ≡ opening_told yard.beginning world) }
{
    match PlainYard::of(alloc, world, settings, scripts) {
        Ok(yard) => Ok(yard),
        Err(NoYard { world: _ }) => Err(AllocError),
    }
}
