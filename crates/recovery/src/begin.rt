//! The rooms of a memory that a cut left, as a recovery begins.

ghost use Rattle.std.specs.Prelude.{◌≡◌, ◌<◌, ◌^◌, ◌-◌, ℕ, length, IfOk};
ghost use Rattle.line_memory.specs.Line.{bank_at};
ghost use Rattle.life_model.specs.Life.{Opening};
ghost use Rattle.epoch_word.specs.declared.stage.EpochStage.TheVariants.{Before};
ghost use Rattle.recovery.specs.Recovering.{IsRoomIn, WritesLittleBack, EachFrom};
ghost use Rattle.seq_object.specs.declared.settings.Settings.{Settings as SettingsModel};
ghost use Rattle.seq_object.specs.Sizes.{sizes_of, super_room, room_count};
ghost use Rattle.incll_var.specs.Cells.{AreSettled};
ghost use Rattle.epoch_word.specs.SuperLine.{HoldsEpoch};
ghost use Rattle.room_model.specs.EpochLine.{memory_epoch};
ghost use Rattle.recovery.specs.Banks.{MayBecome, Becomes, AreBanksOf, most_at, HasEvents};

use epoch_word::SuperRoom;
use incll_var::CellBank;
use line_memory::{Bank, Memory};
use locked_map::MapRoom;
use locked_queue::QueueRoom;
use restart_point::{ThreadEnd, ThreadRoom};
use rooms::Room;
use seq_object::Settings;
use std::alloc::{AllocError, Global};

/// The map room of a shard.
fn map_room(
    alloc: Global,
    bank: Bank,
    epoch: u32,
    settings: Settings,
    room: u32,
) -> Result<Room, AllocError>
    requires shard { room < settings.shards }
    requires bank { MayBecome settings epoch room bank }
    ensures { IfOk result (λ x. Becomes settings epoch room bank x) }
{
    let cells = CellBank::torn(alloc, bank, epoch)?;
    Ok(Room::Map(MapRoom::of(alloc, cells, settings, room)))
}

/// The queue room.
fn queue_room(alloc: Global, bank: Bank, epoch: u32, settings: Settings) -> Result<Room, AllocError>
    requires { MayBecome settings epoch settings.shards bank }
    ensures { IfOk result (λ x. Becomes settings epoch settings.shards bank x) }
{
    let cells = CellBank::torn(alloc, bank, epoch)?;
    Ok(Room::Queue(QueueRoom::of(alloc, cells, settings)))
}

/// The room of a thread. Its end is told when the recovery is over.
fn thread_room(alloc: Global, bank: Bank, epoch: u32) -> Result<Room, AllocError>
    requires one { length bank.lines ≡ 1 }
    requires settled { AreSettled epoch bank.lines }
    ensures { IfOk result (λ x. (settings : SettingsModel) (k : ℕ) → settings.shards < k → k < super_room (sizes_of settings) → Becomes settings epoch k bank x) }
{
    let cells = CellBank::torn(alloc, bank, epoch)?;
    Ok(Room::Thread(ThreadRoom::of(alloc, cells, ThreadEnd::Ready)?))
}

/// The super room.
fn last_room(bank: Bank) -> Result<Room, AllocError>
    requires { HoldsEpoch bank }
    ensures { IfOk result (λ x. (settings : SettingsModel) (k epoch : ℕ) → k ≡ super_room (sizes_of settings) → Becomes settings epoch k bank x) }
{
    Ok(Room::Super(SuperRoom::of(bank)?))
}

/// The room of a number.
pub(crate) fn room_of(
    alloc: Global,
    bank: Bank,
    epoch: u32,
    settings: Settings,
    room: u32,
) -> Result<Room, AllocError>
    requires within { room < room_count (sizes_of settings) }
    requires bank { MayBecome settings epoch room bank }
    ensures { IfOk result (λ x. Becomes settings epoch room bank x) }
{
    if room < settings.shards {
        map_room(alloc, bank, epoch, settings, room)
    } else if room == settings.shards {
        queue_room(alloc, bank, epoch, settings)
    } else if room - settings.shards <= settings.threads {
        thread_room(alloc, bank, epoch)
    } else {
        last_room(bank)
    }
}

/// The rooms of these banks, by their numbers.
pub(crate) fn rooms_of(
    alloc: Global,
    banks: Vec<Bank>,
    epoch: u32,
    settings: Settings,
) -> Result<Vec<Room>, AllocError>
    requires number { length banks.items ≡ room_count (sizes_of settings) }
    requires few { length banks.items < 2 ^ 32 }
    requires banks { (o : Opening) × AreBanksOf o settings epoch banks.items }
    ensures count { IfOk result (λ rooms. length rooms.items ≡ length banks.items) }
    ensures about { IfOk result (λ rooms. (o : Opening) → AreBanksOf o settings epoch banks.items → EachFrom (IsRoomIn o Before) 0 rooms.items) }
    ensures events { IfOk result (λ rooms. EachFrom (HasEvents settings epoch banks.items) 0 rooms.items) }
    ensures few { IfOk result (λ rooms. EachFrom (WritesLittleBack (most_at settings epoch banks.items) Before) 0 rooms.items) }
{
    let mut rooms = Vec::with_capacity(alloc, banks.len())?;
    for bank in banks {
        let room = rooms.len() as u32;
        rooms.push(room_of(alloc, bank, epoch, settings, room)?)?;
    }
    Ok(rooms)
}

/// The epoch that the last bank of a memory holds.
pub(crate) fn memory_epoch_in(memory: &Memory) -> u32
    requires some { 0 < length memory.now }
    requires holds { HoldsEpoch (bank_at memory.now (length memory.now - 1)) }
    ensures { result ≡ memory_epoch (bank_at memory.now (length memory.now - 1)) }
{
    memory.bank(memory.rooms() - 1).base(0)[0] as u32
}
