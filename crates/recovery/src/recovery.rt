//! A recovery and its events.

ghost use Rattle.std.specs.Prelude.{◌≡◌, ◌≢◌, ◌+◌, ◌^◌, ◌<◌, ◌↔◌, [], length, IsTrue, IfOk};
ghost use Rattle.seq_object.specs.Sizes.{sizes_of};
ghost use Rattle.line_memory.specs.Line.{IsQuiet, all_lines};
ghost use Rattle.room_model.specs.MapRoom.{live_layout};
ghost use Rattle.room_model.specs.Image.{image_of, nothing_kept, epoch_at, IsLawful};
ghost use Rattle.life_model.specs.Life.{Opening, sizes};
ghost use Rattle.life_model.specs.Crash.{IsCrashSafe};
ghost use Rattle.life_model.specs.Lives.{ResumesFrom};
ghost use Rattle.epoch_word.specs.declared.stage.EpochStage.TheVariants as stages;
ghost use Rattle.yard_model.specs.declared.view.Beginning.{Beginning};
ghost use Rattle.yard_model.specs.Beginnings.{opening_of, IsBeginning};
ghost use Rattle.room_yard.specs.World.{memory_of, Opens};
ghost use Rattle.recovery.specs.Banks.{most_at};
ghost use Rattle.recovery.specs.Laws.{AreLengthsOf, IsWorldOf};
ghost use Rattle.recovery.specs.Recovering.{IsRecovery, AllWriteLittleBack, stepped, step_to, marks_at, events_left, recovery_events, epoch_by_load, write_backs_of};

use crate::begin::{memory_epoch_in, rooms_of};
use crate::end::{epoch_in, has_item, tell_ends};
use crate::epoch::{fence, store_next, write_back};
use crate::restores::restore_next;
use epoch_word::EpochStage;
use line_memory::{Bank, Memory};
use room_yard::{World, WorldParts, word_of_epoch};
use rooms::Room;
use seq_object::Settings;
use std::alloc::{AllocError, Global};
use std::marker::Model;

/// What a step of a recovery says.
#[derive(Clone, Copy, Debug, PartialEq, Eq)]
pub enum RecoverStep {
    /// An event was done, and another is left.
    Did,
    /// The last event was done: the next epoch is in memory.
    Finished,
}

/// A recovery: the rooms of its memory, and how far the write of the next epoch has come.
#[derive(Drop)]
pub struct Recovery {
    settings: Settings,
    rooms: Vec<Room>,
    stage: EpochStage,
    spare: Vec<Bank>,
    held: Vec<u32>,
}

impl Model for Recovery {
    ghost use Rattle.recovery.specs.Recovering.{RecoveryState};
    ghost use Rattle.recovery.specs.Kept.{IsKeptRecovery};

    ghost Value = { RecoveryState };

    ghost view = { λ a. record { settings = a.settings; rooms = a.rooms.items; stage = a.stage } };

    ghost invariant = { λ a. IsKeptRecovery (record { settings = a.settings; rooms = a.rooms.items; stage = a.stage }) a.spare a.held };
}

impl Recovery {
    /// The recovery of a memory that a power cut left: nothing is pending, its image is lawful, and its epoch is below
    /// 2^32 - 1. It makes room for all that it does later. Want of memory is its one refusal; the memory is then given up.
    pub fn of(alloc: Global, memory: Memory, settings: Settings) -> Result<Recovery, AllocError>
        requires quiet { IsQuiet memory }
        requires lawful { IsLawful live_layout (sizes_of settings) (image_of memory nothing_kept) }
        requires below { epoch_at (sizes_of settings) (image_of memory nothing_kept) + 1 < 2 ^ 32 }
        ensures settings { IfOk result (λ r. r.settings ≡ settings) }
        ensures stage { IfOk result (λ r. r.stage ≡ stages.Before) }
        ensures about { IfOk result (λ r. (o : Opening) → o.settings ≡ settings → ResumesFrom (sizes o) (image_of memory nothing_kept) o → IsRecovery o r) }
        ensures count { IfOk result (λ r. events_left r ≡ recovery_events (sizes_of settings) (image_of memory nothing_kept)) }
        ensures few { IfOk result (λ r. AllWriteLittleBack (most_at settings (epoch_at (sizes_of settings) (image_of memory nothing_kept)) memory) r) }
    {
        let epoch = memory_epoch_in(&memory);
        let rooms = rooms_of(alloc, memory.into_banks(), epoch, settings)?;
        let spare = Vec::with_capacity(alloc, rooms.len())?;
        let held = Vec::with_capacity(alloc, rooms.len())?;
        Ok(Recovery {
            settings,
            rooms,
            stage: EpochStage::Before,
            spare,
            held,
        })
    }

    /// Does the next event: of the rooms' restores in their order, and behind them the store, the write-back and the fence
    /// of the next epoch. It takes no memory.
    pub fn step(&mut self) -> RecoverStep
        requires going { self.old.stage ≢ stages.InMemory }
        ensures is { self.new ≡ stepped self.old }
        ensures step { result ≡ step_to self.new.stage }
        ensures about { (o : Opening) → IsRecovery o self.old → IsRecovery o self.new }
        ensures safe { (o : Opening) → IsRecovery o self.old → length o.scripts ≡ o.settings.threads → IsCrashSafe o [] (marks_at self.new.stage) (memory_of self.new.rooms) }
        ensures left { events_left self.old ≡ events_left self.new + 1 }
    {
        match self.stage {
            EpochStage::Before => {
                if !restore_next(&mut self.rooms) {
                    store_next(&mut self.rooms);
                    self.stage = EpochStage::Stored;
                }
                RecoverStep::Did
            }
            EpochStage::Stored => {
                write_back(&mut self.rooms);
                self.stage = EpochStage::AskedFor;
                RecoverStep::Did
            }
            EpochStage::AskedFor => {
                fence(&mut self.rooms);
                self.stage = EpochStage::InMemory;
                RecoverStep::Finished
            }
            EpochStage::InMemory => RecoverStep::Finished,
        }
    }

    /// Whether the last event was done.
    pub fn is_finished(&self) -> bool
        ensures { IsTrue result ↔ (self.now.stage ≡ stages.InMemory) }
    {
        self.stage == EpochStage::InMemory
    }

    /// The settings of the memory.
    pub fn settings(&self) -> Settings
        ensures { result ≡ self.now.settings }
    {
        self.settings
    }

    /// The memory epoch by load, from 1 to 2^32 - 1: the image's, and the next once its store was made.
    pub fn epoch(&self) -> u32
        ensures { result ≡ epoch_by_load self.now }
    {
        epoch_in(self.rooms.as_slice())
    }

    /// The memory, whatever is pending in it, wherever the recovery was cut. It takes no memory.
    pub fn into_memory(self) -> Memory
        ensures { result ≡ memory_of self.rooms }
    {
        let Recovery {
            settings: _,
            rooms,
            stage: _,
            spare,
            held,
        } = self;
        let world = World::of(WorldParts {
            rooms,
            arrival: 0,
            clock: 0,
            held,
            spare,
        });
        world.memory()
    }

    /// The world with which the resumed life opens, once the recovery is finished: all rooms at home, each thread standing, its
    /// end told by the length of its script (one for each thread, in the order of threads), and the arrival word of the next epoch. It takes no memory.
    pub fn into_world(self, lengths: &[u32]) -> World
        requires finished { self.stage ≡ stages.InMemory }
        requires lengths { length lengths.now ≡ self.settings.threads }
        ensures is { IsWorldOf self lengths.now result }
        ensures memory { memory_of result.rooms ≡ memory_of self.rooms }
        ensures fits { (length result.rooms < 2 ^ 32) × (all_lines (memory_of result.rooms) < 2 ^ 32) }
        ensures opens { (b : Beginning) → IsRecovery (opening_of b) self → b.write_backs ≡ write_backs_of self.rooms → AreLengthsOf b lengths.now → IsBeginning b → Opens b result }
    {
        let Recovery {
            settings,
            rooms,
            stage: _,
            spare,
            held,
        } = self;
        let mut rooms = rooms;
        let fed = has_item(&rooms[settings.shards as usize]);
        let epoch = epoch_in(rooms.as_slice());
        let over = tell_ends(&mut rooms, settings.shards, lengths);
        let arrival = word_of_epoch(settings.threads, over, fed, epoch);
        World::of(WorldParts {
            rooms,
            arrival,
            clock: 0,
            held,
            spare,
        })
    }
}
