//! What a life begins with that opens with a world: it is copied off the world's rooms.

ghost use Rattle.std.specs.Prelude.{◌≡◌, ◌++◌, List, length, map, OnOk, IfOk};
ghost use Rattle.std.specs.List.{All, flat_map};
ghost use Rattle.yard_model.specs.declared.view.Beginning.{Beginning as TheBeginning};
ghost use Rattle.rooms.specs.Rooms.{bank_of};
ghost use Rattle.yard_model.specs.Beginnings.{opening_of};
ghost use Rattle.room_yard.specs.World.{IsReadable, pairs_at, items_at, points_at, beginning_with, first_life, epoch_before, Begins, Opens, CanOpen};

use crate::world::World;
use life_model::Life;
use planned_cells::CellRoom;
use restart_point::Arrival;
use seq_object::{Command, Pair, RestartPoint, Settings};
use std::alloc::{AllocError, Global};
use std::collections::LinkedList;
use yard_model::{Beginning, Room};

impl World {
    /// What a life of these settings and scripts begins with that opens with this world, in which the power is off where the
    /// tick word is at least the limit. It is the one beginning of the world: any other that the world opens has the same
    /// settings, scripts, epoch and state. The cause of a refusal is want of memory.
    pub fn beginning(
        &self,
        alloc: Global,
        settings: Settings,
        scripts: &[Vec<Command>],
        limit: u64,
    ) -> Result<Beginning, AllocError>
        requires opens { CanOpen settings (map (λ s. s.items) scripts.now) limit self.now }
        ensures is { IfOk result (λ b. b ≡ beginning_with settings (map (λ s. s.items) scripts.now) limit self.now) }
        ensures opens { (b : TheBeginning) → Begins settings (map (λ s. s.items) scripts.now) limit b → Opens b self.now → IfOk result (λ c. (opening_of c ≡ opening_of b) × Opens c self.now) }
    {
        let epoch = Arrival::of(self.arrival()).epoch;
        let rooms = self.rooms();
        Ok(Beginning {
            settings,
            scripts: scripts_of(alloc, scripts)?,
            life: life_of(epoch),
            epoch: epoch_of(epoch),
            pairs: pairs_of(alloc, rooms)?,
            items: items_of(alloc, rooms)?,
            points: points_of(alloc, rooms)?,
            limit,
            write_backs: write_backs_of(alloc, rooms)?,
        })
    }
}

/// A life starts where its first epoch is 1.
fn life_of(epoch: u32) -> Life
    ensures { result ≡ first_life epoch }
{
    if epoch == 1 {
        Life::Start
    } else {
        Life::Resume
    }
}

/// The epoch of the image before a life with this first epoch: the one before, and 1 at a start.
fn epoch_of(epoch: u32) -> u32
    ensures { result ≡ epoch_before epoch }
{
    if epoch == 1 {
        1
    } else {
        epoch.saturating_sub(1)
    }
}

/// The commands of each thread.
fn scripts_of(
    alloc: Global,
    scripts: &[Vec<Command>],
) -> Result<LinkedList<LinkedList<Command>>, AllocError>
    ensures { IfOk result (λ copies. copies ≡ map (λ s. s.items) scripts.now) }
{
    let mut copies = LinkedList::new(alloc);
    for script in scripts {
        copies.push_back(script_of(alloc, script.as_slice())?)?;
    }
    Ok(copies)
}

/// The commands of a script.
fn script_of(alloc: Global, script: &[Command]) -> Result<LinkedList<Command>, AllocError>
    ensures { IfOk result (λ copy. copy ≡ script.now) }
{
    let mut copy = LinkedList::new(alloc);
    for command in script {
        copy.push_back(*command)?;
    }
    Ok(copy)
}

/// The pairs of all map rooms, in the order of the rooms and of their keys.
fn pairs_of(alloc: Global, rooms: &[Room]) -> Result<LinkedList<(u64, u64)>, AllocError>
    requires { All IsReadable rooms.now }
    ensures { IfOk result (λ pairs. pairs ≡ flat_map pairs_at rooms.now) }
{
    let mut pairs = LinkedList::new(alloc);
    for room in rooms {
        add_pairs(alloc, room, &mut pairs)?;
    }
    Ok(pairs)
}

/// Adds the pairs of a map room. Other rooms have none.
fn add_pairs(
    alloc: Global,
    room: &Room,
    pairs: &mut LinkedList<(u64, u64)>,
) -> Result<(), AllocError>
    requires { IsReadable room.now }
    ensures { OnOk result (pairs.new ≡ pairs.old ++ pairs_at room.now) }
{
    if let Room::Map(map) = room {
        append_pairs(map.entries(alloc)?.as_slice(), pairs)?;
    }
    Ok(())
}

/// Appends pairs.
fn append_pairs(more: &[Pair], pairs: &mut LinkedList<(u64, u64)>) -> Result<(), AllocError>
    ensures { OnOk result (pairs.new ≡ pairs.old ++ map (λ p. (p.key, p.value)) more.now) }
{
    for pair in more {
        pairs.push_back((pair.key, pair.value))?;
    }
    Ok(())
}

/// The items of the queue room, from front to back.
fn items_of(alloc: Global, rooms: &[Room]) -> Result<LinkedList<u64>, AllocError>
    requires { All IsReadable rooms.now }
    ensures { IfOk result (λ items. items ≡ flat_map items_at rooms.now) }
{
    let mut items = LinkedList::new(alloc);
    for room in rooms {
        add_items(alloc, room, &mut items)?;
    }
    Ok(items)
}

/// Adds the items of the queue room. Other rooms have none.
fn add_items(alloc: Global, room: &Room, items: &mut LinkedList<u64>) -> Result<(), AllocError>
    requires { IsReadable room.now }
    ensures { OnOk result (items.new ≡ items.old ++ items_at room.now) }
{
    if let Room::Queue(queue) = room {
        append_items(queue.entries(alloc)?.as_slice(), items)?;
    }
    Ok(())
}

/// Appends items.
fn append_items(more: &[u64], items: &mut LinkedList<u64>) -> Result<(), AllocError>
    ensures { OnOk result (items.new ≡ items.old ++ more.now) }
{
    for item in more {
        items.push_back(*item)?;
    }
    Ok(())
}

/// The restart points of the threads' rooms, in the order of the threads.
fn points_of(alloc: Global, rooms: &[Room]) -> Result<LinkedList<RestartPoint>, AllocError>
    ensures { IfOk result (λ points. points ≡ flat_map points_at rooms.now) }
{
    let mut points = LinkedList::new(alloc);
    for room in rooms {
        if let Room::Thread(thread) = room {
            points.push_back(RestartPoint {
                position: thread.position(),
            })?;
        }
    }
    Ok(points)
}

/// How many write-backs each room has.
fn write_backs_of(alloc: Global, rooms: &[Room]) -> Result<LinkedList<u64>, AllocError>
    ensures { IfOk result (λ counts. counts ≡ map (λ x. (bank_of x).write_backs) rooms.now) }
{
    let mut counts = LinkedList::new(alloc);
    for room in rooms {
        counts.push_back(room.bank().write_backs())?;
    }
    Ok(counts)
}
