//! The lists of a yard, as a life opens with it.

ghost use Rattle.std.specs.Prelude.{◌≡◌, ◌<◌, ◌^◌, [], IfOk, length, map, replicate, vec_capacity};
ghost use Rattle.yard_model.specs.declared.view.Beginning.{Beginning as TheBeginning};
ghost use Rattle.yard_model.specs.Beginnings.{opening_of};
ghost use Rattle.room_yard.specs.World.{CanOpen, Begins, Opens, beginning_with};
ghost use Rattle.plain_yard.specs.Opening.{commands_in, AreOpeningLists};

use crate::seat::{Drawn, Seat};
use room_yard::World;
use seq_object::{Command, Settings};
use std::alloc::{AllocError, Global};
use yard_model::{Beginning, Room};

/// What a yard is made of beside a world. It is all made before the world is touched.
#[derive(Drop)]
pub struct Parts {
    pub beginning: Beginning,
    pub lists: Lists,
}

/// The lists of a yard, as a life opens with it.
#[derive(Drop)]
pub struct Lists {
    /// A free lock for each room.
    pub locks: Vec<u64>,
    /// A seat for each thread, which has done nothing.
    pub seats: Vec<Seat>,
    /// No entry, with room for one of each command.
    pub log: Vec<Drawn>,
    /// Empty, with room for a place of each room.
    pub places: Vec<Option<Room>>,
    /// Empty, with room for each room.
    pub rooms: Vec<Room>,
}

impl Parts {
    /// The parts of a yard with which a life of these settings and scripts opens on this world. The cause of a refusal is want of
    /// memory.
    pub(crate) fn of(
        alloc: Global,
        world: &World,
        settings: Settings,
        scripts: &[Vec<Command>],
    ) -> Result<Parts, AllocError>
        requires opens { CanOpen settings (map (λ s. s.items) scripts.now) (2 ^ 63) world.now }
        ensures is { IfOk result (λ parts. parts.beginning ≡ beginning_with settings (map (λ s. s.items) scripts.now) (2 ^ 63) world.now) }
        ensures opens { (b : TheBeginning) → Begins settings (map (λ s. s.items) scripts.now) (2 ^ 63) b → Opens b world.now → IfOk result (λ parts. (opening_of parts.beginning ≡ opening_of b) × Opens parts.beginning world.now) }
        ensures lists { IfOk result (λ parts. AreOpeningLists settings.threads (length world.now.rooms) (commands_in (map (λ s. s.items) scripts.now)) parts.lists) }
    {
        Ok(Parts {
            beginning: world.beginning(alloc, settings, scripts, 1 << 63)?,
            lists: Lists::of(
                alloc,
                settings.threads,
                world.rooms().len(),
                commands_of(scripts),
            )?,
        })
    }
}

impl Lists {
    /// The lists of a yard of so many threads and rooms, whose scripts have so many commands.
    fn of(alloc: Global, threads: u32, rooms: usize, commands: usize) -> Result<Lists, AllocError>
        ensures { IfOk result (λ lists. AreOpeningLists threads rooms commands lists) }
    {
        Ok(Lists {
            locks: vec![in alloc; 0_u64; rooms]?,
            seats: seats(alloc, Seat::opening(), threads)?,
            log: Vec::with_capacity(alloc, commands)?,
            places: Vec::with_capacity(alloc, rooms)?,
            rooms: Vec::with_capacity(alloc, rooms)?,
        })
    }
}

/// The same seat for each thread.
fn seats(alloc: Global, seat: Seat, threads: u32) -> Result<Vec<Seat>, AllocError>
    ensures { IfOk result (λ seats. seats.items ≡ replicate threads seat) }
{
    let mut seats = Vec::new(alloc);
    for thread in 0..threads {
        seats.push(seat)?;
    }
    Ok(seats)
}

/// How many commands these scripts have together.
fn commands_of(scripts: &[Vec<Command>]) -> usize
    requires { commands_in (map (λ s. s.items) scripts.now) < 2 ^ 32 }
    ensures { result ≡ commands_in (map (λ s. s.items) scripts.now) }
{
    let mut count = 0;
    for script in scripts {
        count += script.len();
    }
    count
}
