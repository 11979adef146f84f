//! The world of a start.

ghost use Rattle.std.specs.Prelude.{◌≡◌, ◌≤◌, ◌^◌, ◌==◌, ℕ, length, IfOk};
ghost use Rattle.std.specs.List.{list_all};
ghost use Rattle.seq_object.specs.History.{Scripts};
ghost use Rattle.seq_object.specs.Sizes.{IsValid, sizes_of};
ghost use Rattle.room_model.specs.Formatted.{formatted_memory};
ghost use Rattle.room_yard.specs.Answers.{next_word};
ghost use Rattle.room_yard.specs.World.{Opens, CanOpen};
ghost use Rattle.fresh_world.specs.Start.{AreLengths, start_beginning};

use crate::room::rooms_of;
use line_memory::Memory;
use restart_point::Arrival;
use room_model::FIRST_EPOCH;
use room_yard::{World, WorldParts};
use seq_object::Settings;
use std::alloc::{AllocError, Global};

/// The world with which a start opens, of formatted memory: each room of cells saved before the first epoch; each thread standing at
/// its place 0, told that it is at its script's end where its script has no command; the epoch 1, and the life over exactly where no
/// thread has a command. `lengths` has the number of commands of each thread, in the order of threads. Want of memory is the one
/// refusal; the memory is then given up.
pub fn fresh(
    alloc: Global,
    memory: Memory,
    settings: Settings,
    lengths: &[u32],
) -> Result<World, AllocError>
    requires valid { IsValid settings }
    requires formatted { memory ≡ formatted_memory (sizes_of settings) }
    requires lengths { length lengths.now ≡ settings.threads }
    ensures opens { IfOk result (λ world. (scripts : Scripts) (limit : ℕ) → AreLengths scripts lengths.now → limit ≤ 2 ^ 63 → Opens (start_beginning settings scripts limit) world) }
    ensures can_open { IfOk result (λ world. (scripts : Scripts) (limit : ℕ) → AreLengths scripts lengths.now → limit ≤ 2 ^ 63 → CanOpen settings scripts limit world) }
{
    let rooms = rooms_of(alloc, memory.into_banks(), settings, lengths)?;
    let held = Vec::with_capacity(alloc, rooms.len())?;
    let spare = Vec::with_capacity(alloc, rooms.len())?;
    let over = are_empty(lengths);
    let arrival = first_word(settings.threads, over, false, FIRST_EPOCH);
    Ok(World::of(WorldParts {
        rooms,
        arrival,
        clock: 0,
        held,
        spare,
    }))
}

/// Whether no thread has a command.
fn are_empty(lengths: &[u32]) -> bool
    ensures { result ≡ list_all (λ commands. commands == 0) lengths.now }
{
    lengths.iter().all(|commands| *commands == 0)
}

/// The arrival word with which an epoch begins: each of so many threads, at most 16, stands, and none closes.
fn first_word(threads: u32, over: bool, fed: bool, epoch: u32) -> u64
    requires { threads ≤ 16 }
    ensures { result ≡ next_word threads over fed epoch }
{
    let arrival = Arrival {
        mask: ((1u32 << threads) - 1) as u16,
        closing: false,
        over,
        fed,
        epoch,
    };
    arrival.word()
}
