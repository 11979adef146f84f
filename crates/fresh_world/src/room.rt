//! The rooms of formatted memory, as a start has them.

ghost use Rattle.std.specs.Prelude.{◌≡◌, ◌<◌, ℕ, List, length, slice_index, IfOk};
ghost use Rattle.seq_object.specs.declared.settings.Settings.{Settings as SettingsModel};
ghost use Rattle.seq_object.specs.Sizes.{AreValid, sizes_of, thread_room as room_of_thread, super_room, room_count};
ghost use Rattle.room_model.specs.Formatted.{formatted_bank, formatted_memory, line_bank, line_of_words};
ghost use Rattle.fresh_world.specs.Rooms.{IsFreshRoom, AreFreshFrom};

use epoch_word::SuperRoom;
use incll_var::CellBank;
use line_memory::Bank;
use locked_map::MapRoom;
use locked_queue::QueueRoom;
use restart_point::{ThreadEnd, ThreadRoom};
use rooms::Room;
use seq_object::Settings;
use std::alloc::{AllocError, Global};

/// The map room of a shard.
fn map_room(alloc: Global, bank: Bank, settings: Settings, room: u32) -> Result<Room, AllocError>
    requires valid { AreValid (sizes_of settings) }
    requires shard { room < settings.shards }
    requires bank { bank ≡ formatted_bank (sizes_of settings) room }
    ensures { IfOk result (λ x. (lengths : List ℕ) → IsFreshRoom settings lengths room x) }
{
    let cells = CellBank::clean(alloc, bank, 0)?;
    Ok(Room::Map(MapRoom::of(alloc, cells, settings, room)))
}

/// The queue room.
fn queue_room(alloc: Global, bank: Bank, settings: Settings) -> Result<Room, AllocError>
    requires valid { AreValid (sizes_of settings) }
    requires bank { bank ≡ formatted_bank (sizes_of settings) settings.shards }
    ensures { IfOk result (λ x. (lengths : List ℕ) → IsFreshRoom settings lengths settings.shards x) }
{
    let cells = CellBank::clean(alloc, bank, 0)?;
    Ok(Room::Queue(QueueRoom::of(alloc, cells, settings)))
}

/// The room of a thread whose script has so many commands.
fn thread_room(alloc: Global, bank: Bank, commands: u32) -> Result<Room, AllocError>
    requires { bank ≡ line_bank (line_of_words 0 0) }
    ensures { IfOk result (λ x. (settings : SettingsModel) (lengths : List ℕ) (i : ℕ) → i < settings.threads → slice_index lengths i ≡ commands → IsFreshRoom settings lengths (room_of_thread (sizes_of settings) i) x) }
{
    let end = if commands == 0 {
        ThreadEnd::Ended
    } else {
        ThreadEnd::Ready
    };
    let cells = CellBank::clean(alloc, bank, 0)?;
    Ok(Room::Thread(ThreadRoom::of(alloc, cells, end)?))
}

/// The super room.
fn last_room(bank: Bank) -> Result<Room, AllocError>
    requires { bank ≡ line_bank (line_of_words 1 0) }
    ensures { IfOk result (λ x. (settings : SettingsModel) (lengths : List ℕ) → IsFreshRoom settings lengths (super_room (sizes_of settings)) x) }
{
    Ok(Room::Super(SuperRoom::of(bank)?))
}

/// The room of a number.
fn room_of(
    alloc: Global,
    bank: Bank,
    settings: Settings,
    lengths: &[u32],
    room: u32,
) -> Result<Room, AllocError>
    requires valid { AreValid (sizes_of settings) }
    requires lengths { length lengths.now ≡ settings.threads }
    requires within { room < room_count (sizes_of settings) }
    requires bank { bank ≡ formatted_bank (sizes_of settings) room }
    ensures { IfOk result (λ x. IsFreshRoom settings lengths.now room x) }
{
    if room < settings.shards {
        return map_room(alloc, bank, settings, room);
    }
    if room == settings.shards {
        return queue_room(alloc, bank, settings);
    }
    let thread = room - settings.shards - 1;
    if thread < settings.threads {
        thread_room(alloc, bank, lengths[thread as usize])
    } else {
        last_room(bank)
    }
}

/// The rooms of these banks, by their numbers.
pub(crate) fn rooms_of(
    alloc: Global,
    banks: Vec<Bank>,
    settings: Settings,
    lengths: &[u32],
) -> Result<Vec<Room>, AllocError>
    requires valid { AreValid (sizes_of settings) }
    requires lengths { length lengths.now ≡ settings.threads }
    requires banks { banks.items ≡ formatted_memory (sizes_of settings) }
    ensures count { IfOk result (λ rooms. length rooms.items ≡ room_count (sizes_of settings)) }
    ensures rooms { IfOk result (λ rooms. AreFreshFrom settings lengths.now 0 rooms.items) }
{
    let mut rooms = Vec::with_capacity(alloc, banks.len())?;
    for bank in banks {
        let room = rooms.len() as u32;
        rooms.push(room_of(alloc, bank, settings, lengths, room)?)?;
    }
    Ok(rooms)
}
