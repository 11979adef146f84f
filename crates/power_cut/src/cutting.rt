//! The image that a power cut leaves of a memory. The lines are numbered through all rooms, in the order of the rooms.

ghost use Rattle.std.specs.Prelude.{◌≡◌, IfOk};
ghost use Rattle.seq_object.specs.Sizes.{sizes_of, AreValid};
ghost use Rattle.room_model.specs.Image.{image_of, HasRooms};
ghost use Rattle.power_cut.specs.Image.{sizes_in, rooms_in, lists_of, HaveWords, IsWhole};
ghost use Rattle.power_cut.specs.Cut.{choosing};

use crate::image::Image;
use line_memory::Memory;
use seq_object::Settings;
use std::alloc::{AllocError, Global};
use store_order::{Choice, generator_of, survive_next};

/// The image that the choice leaves of a memory of these settings; the memory stays as it is. Want of memory is the one
/// refusal. It is whole where the settings are within their limits and the memory has the rooms and lines of the settings.
pub fn cut(
    alloc: Global,
    memory: &Memory,
    settings: &Settings,
    choice: &Choice,
) -> Result<Image, AllocError>
    ensures sizes { IfOk result (λ image. sizes_in image ≡ sizes_of settings.now) }
    ensures rooms { IfOk result (λ image. rooms_in image ≡ image_of memory.now (choosing choice.now memory.now)) }
    ensures whole { AreValid (sizes_of settings.now) → HasRooms (sizes_of settings.now) memory.now → IfOk result IsWhole }
{
    let rooms = rooms_kept(alloc, memory, choice)?;
    Ok(Image {
        threads: settings.threads,
        shards: settings.shards,
        lines: settings.lines,
        rooms,
    })
}

/// What the choice leaves of the rooms of a memory. The words of a seed are drawn once, from room to room.
fn rooms_kept(
    alloc: Global,
    memory: &Memory,
    choice: &Choice,
) -> Result<Vec<Vec<[u64; 8]>>, AllocError>
    ensures kept { IfOk result (λ rooms. lists_of rooms.items ≡ image_of memory.now (choosing choice.now memory.now)) }
    ensures words { IfOk result (λ rooms. HaveWords (lists_of rooms.items)) }
{
    let _all = memory.lines();
    let mut rooms = Vec::with_capacity(alloc, memory.rooms() as usize)?;
    let mut first = 0u32;
    let mut words = generator_of(choice);
    for room in 0..memory.rooms() {
        let bank = memory.bank(room);
        rooms.push(survive_next(alloc, bank, choice, first, &mut words)?)?;
        first += bank.lines();
    }
    Ok(rooms)
}
