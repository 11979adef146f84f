//! A world: the rooms of a memory, which a yard takes, and gives back when a life ends.

ghost use Rattle.std.specs.Prelude.{◌≡◌, ◌≤◌, ◌<◌, ◌^◌, [], length, map, vec_capacity};
ghost use Rattle.line_memory.specs.Line.{all_lines};
ghost use Rattle.rooms.specs.Rooms.{bank_of};
ghost use Rattle.room_yard.specs.World.{memory_of};

use line_memory::{Bank, Memory};
use planned_cells::CellRoom;
use std::marker::Model;
use yard_model::Room;

/// The rooms of a memory, all at home, in the order of their numbers, with the two words that outlast a yard. A world has
/// room for a bank and for a number of each of its rooms, so that no call at the end of a life takes memory.
#[derive(Drop)]
pub struct World {
    rooms: Vec<Room>,
    arrival: u64,
    clock: u64,
    held: Vec<u32>,
    spare: Vec<Bank>,
}

/// The parts of a world.
#[derive(Drop)]
pub struct WorldParts {
    /// The rooms, in the order of their numbers.
    pub rooms: Vec<Room>,
    /// The arrival word.
    pub arrival: u64,
    /// How many entries the life has drawn.
    pub clock: u64,
    /// The numbers of the rooms that were given back in mid-work, ascending. It has room for a number of each room.
    pub held: Vec<u32>,
    /// Empty, with room for a bank of each room.
    pub spare: Vec<Bank>,
}

impl Model for World {
    ghost use Rattle.std.specs.Prelude.{◌≡◌, ◌≤◌, [], length, vec_capacity};
    ghost use Rattle.room_yard.specs.World.{WorldState};

    ghost Value = { WorldState };

    ghost view = { λ a. record { rooms = a.rooms.items; arrival = a.arrival; clock = a.clock; held = a.held.items } };

    ghost invariant = { λ a. (a.spare.items ≡ []) × (length a.rooms.items ≤ vec_capacity a.spare) × (length a.rooms.items ≤ vec_capacity a.held) };
}

impl World {
    /// The world of these parts.
    pub fn of(parts: WorldParts) -> World
        requires empty { parts.spare.items ≡ [] }
        requires banks { length parts.rooms.items ≤ vec_capacity parts.spare }
        requires numbers { length parts.rooms.items ≤ vec_capacity parts.held }
        ensures { result ≡ record { rooms = parts.rooms.items; arrival = parts.arrival; clock = parts.clock; held = parts.held.items } }
    {
        let WorldParts {
            rooms,
            arrival,
            clock,
            held,
            spare,
        } = parts;
        World {
            rooms,
            arrival,
            clock,
            held,
            spare,
        }
    }

    /// The rooms, in the order of their numbers.
    pub fn rooms(&self) -> &[Room]
        ensures { result.now ≡ self.now.rooms }
    {
        self.rooms.as_slice()
    }

    /// The arrival word.
    pub fn arrival(&self) -> u64
        ensures { result ≡ self.now.arrival }
    {
        self.arrival
    }

    /// How many entries the life has drawn.
    pub fn clock(&self) -> u64
        ensures { result ≡ self.now.clock }
    {
        self.clock
    }

    /// The numbers of the rooms that were given back in mid-work, ascending.
    pub fn held(&self) -> &[u32]
        ensures { result.now ≡ self.now.held }
    {
        self.held.as_slice()
    }

    /// The parts, with the room that the world has. It takes no memory.
    pub fn into_parts(self) -> WorldParts
        ensures rooms { result.rooms.items ≡ self.rooms }
        ensures arrival { result.arrival ≡ self.arrival }
        ensures clock { result.clock ≡ self.clock }
        ensures held { result.held.items ≡ self.held }
        ensures empty { result.spare.items ≡ [] }
        ensures banks { length self.rooms ≤ vec_capacity result.spare }
        ensures numbers { length self.rooms ≤ vec_capacity result.held }
    {
        let World {
            rooms,
            arrival,
            clock,
            held,
            spare,
        } = self;
        WorldParts {
            rooms,
            arrival,
            clock,
            held,
            spare,
        }
    }

    /// The memory under the rooms, whatever is pending in it. It takes no memory of the program's.
    pub fn memory(self) -> Memory
        requires rooms { length self.rooms < 2 ^ 32 }
        requires lines { all_lines (memory_of self.rooms) < 2 ^ 32 }
        ensures { result ≡ memory_of self.rooms }
    {
        let World {
            rooms,
            arrival: _,
            clock: _,
            held: _,
            spare,
        } = self;
        Memory::of(banks_under(rooms, spare))
    }
}

/// The banks under these rooms, in a list that has room for them. It takes no memory.
fn banks_under(rooms: Vec<Room>, spare: Vec<Bank>) -> Vec<Bank>
    requires empty { spare.items ≡ [] }
    requires room { length rooms.items ≤ vec_capacity spare }
    ensures { result.items ≡ memory_of rooms.items }
{
    let mut banks = spare;
    for room in rooms {
        banks.push_reserved(room.into_bank());
    }
    banks
}
