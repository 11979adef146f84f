//! The lists that a yard keeps for the end of its life, in which no call takes memory.

ghost use Rattle.std.specs.Prelude.{◌≡◌, ◌≤◌, ◌<◌, [], length, map, Some, option_to_list, vec_capacity};
ghost use Rattle.std.specs.List.{flat_map};
ghost use Rattle.plain_yard.specs.Apart.{dead_from};

use line_memory::Bank;
use yard_model::Room;

/// Empty lists with room for each room, for its number, and for its bank.
#[derive(Drop)]
pub struct Emptied {
    pub rooms: Vec<Room>,
    pub held: Vec<u32>,
    pub banks: Vec<Bank>,
}

/// Each room at its place. It takes no memory.
pub(crate) fn placed(rooms: Vec<Room>, places: Vec<Option<Room>>) -> Vec<Option<Room>>
    requires empty { places.items ≡ [] }
    requires room { length rooms.items ≤ vec_capacity places }
    ensures { result.items ≡ map Some rooms.items }
{
    let mut filled = places;
    for room in rooms {
        filled.push_reserved(Some(room));
    }
    filled
}

/// The rooms at their places, in order. It takes no memory.
pub(crate) fn gathered(places: Vec<Option<Room>>, rooms: Vec<Room>) -> Vec<Room>
    requires empty { rooms.items ≡ [] }
    requires room { length places.items ≤ vec_capacity rooms }
    ensures { result.items ≡ flat_map option_to_list places.items }
{
    let mut gathered = rooms;
    for place in places {
        if let Some(room) = place {
            gathered.push_reserved(room);
        }
    }
    gathered
}

/// The numbers of the rooms whose lock is dead, ascending. It takes no memory.
pub(crate) fn dead_among(locks: &[u64], held: Vec<u32>) -> Vec<u32>
    requires empty { held.items ≡ [] }
    requires few { length locks.now < 4294967296 }
    requires room { length locks.now ≤ vec_capacity held }
    ensures items { result.items ≡ dead_from 0 locks.now }
    ensures room { vec_capacity result ≡ vec_capacity held }
{
    let mut dead = held;
    for (room, lock) in locks.iter().enumerate() {
        if *lock == u64::MAX {
            dead.push_reserved(room as u32);
        }
    }
    dead
}
