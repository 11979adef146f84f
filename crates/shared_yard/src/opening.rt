//! What a yard is made of beside a world. It is all made before the world is touched.

ghost use Rattle.std.specs.Prelude.{◌≡◌, IfOk, length, map};
ghost use Rattle.yard_model.specs.declared.view.Beginning.{Beginning as TheBeginning};
ghost use Rattle.yard_model.specs.Beginnings.{opening_of};
ghost use Rattle.room_yard.specs.World.{CanOpen, Begins, Opens, beginning_with};
ghost use Rattle.shared_yard.specs.Openings.{opening_words, AreOpeningLists};

use crate::seat::YardSeat;
use room_yard::World;
use seq_object::{Command, Settings};
use std::alloc::{AllocError, Global};
use yard_model::{Beginning, Room};

/// What a yard is made of beside a world.
#[derive(Drop)]
pub(crate) struct Parts {
    pub beginning: Beginning,
    pub lists: Lists,
}

/// The lists of a yard, as a life opens with it.
#[derive(Drop)]
pub(crate) struct Lists {
    /// The tick word, the clock, the arrival word, and a free lock for each room.
    pub words: Vec<u64>,
    /// Empty, with room for a seat of each thread.
    pub seats: Vec<YardSeat>,
    /// Empty, with room for a slot of each room.
    pub slots: Vec<Option<Room>>,
    /// Empty, with room for each room.
    pub rooms: Vec<Room>,
}

impl Parts {
    /// The parts of a yard with which a life of these settings and scripts opens on this world, whose power is off where the tick word
    /// is at least the limit. The cause of a refusal is want of memory.
    pub(crate) fn of(
        alloc: Global,
        world: &World,
        settings: Settings,
        scripts: &[Vec<Command>],
        limit: u32,
    ) -> Result<Parts, AllocError>
        requires opens { CanOpen settings (map (λ s. s.items) scripts.now) limit world.now }
        ensures is { IfOk result (λ parts. parts.beginning ≡ beginning_with settings (map (λ s. s.items) scripts.now) limit world.now) }
        ensures opens { (b : TheBeginning) → Begins settings (map (λ s. s.items) scripts.now) limit b → Opens b world.now → IfOk result (λ parts. (opening_of parts.beginning ≡ opening_of b) × Opens parts.beginning world.now) }
        ensures lists { IfOk result (λ parts. AreOpeningLists settings.threads (length world.now.rooms) world.now.arrival parts.lists) }
    {
        Ok(Parts {
            beginning: world.beginning(alloc, settings, scripts, u64::from(limit))?,
            lists: Lists::of(
                alloc,
                settings.threads,
                world.rooms().len(),
                world.arrival(),
            )?,
        })
    }
}

impl Lists {
    /// The lists of a yard of so many threads and rooms, with this arrival word.
    fn of(alloc: Global, threads: u32, rooms: usize, arrival: u64) -> Result<Lists, AllocError>
        ensures { IfOk result (λ lists. AreOpeningLists threads rooms arrival lists) }
    {
        Ok(Lists {
            words: words(alloc, arrival, rooms)?,
            seats: Vec::with_capacity(alloc, threads as usize)?,
            slots: Vec::with_capacity(alloc, rooms)?,
            rooms: Vec::with_capacity(alloc, rooms)?,
        })
    }
}

/// No tick, no entry, this arrival word, and a free lock for each room.
fn words(alloc: Global, arrival: u64, rooms: usize) -> Result<Vec<u64>, AllocError>
    ensures { IfOk result (λ words. words.items ≡ opening_words arrival rooms) }
{
    let mut words = Vec::new(alloc);
    words.push(0)?;
    words.push(0)?;
    words.push(arrival)?;
    for _lock in 0..rooms {
        words.push(0)?;
    }
    Ok(words)
}
