//! The banks of formatted memory, each made by itself.

ghost use Rattle.std.specs.Prelude.{◌≡◌, ℕ, ◌<◌, ◌≤◌, [], length, IfOk};
ghost use Rattle.line_memory.specs.Line.{all_write_backs, bank_load, line_at, line_of, IsQuiet};
ghost use Rattle.seq_object.specs.Sizes.{AreValid, sizes_of, room_count, line_count};
ghost use Rattle.room_model.specs.Cell.{tag_of};
ghost use Rattle.room_model.specs.Chains.{HasSameRecords};
ghost use Rattle.room_model.specs.MapRoom.{live_layout};
ghost use Rattle.room_model.specs.Formatted.{formatted, first_node, formatted_bank, formatted_memory, line_bank, room_bank};

use line_memory::{Bank, Memory};
use room_model::{FIRST_EPOCH, LIVE_HEADS, QUEUE_FIRST};
use seq_object::{Settings, Sizes};
use std::alloc::{AllocError, Global};

/// The formatted memory of these settings: the map rooms, the queue room, a room for each thread, and the super room. Nothing
/// is pending in it, and nothing was written back. Want of memory is the one refusal.
pub fn format(alloc: Global, settings: &Settings) -> Result<Memory, AllocError>
    requires { AreValid (sizes_of settings.now) }
    ensures is { IfOk result (λ memory. memory ≡ formatted_memory (sizes_of settings.now)) }
    ensures quiet { IfOk result IsQuiet }
    ensures asked { IfOk result (λ memory. (room line : ℕ) → (line_of memory room line).asked ≡ 0) }
    ensures flushed { IfOk result (λ memory. all_write_backs memory ≡ 0) }
{
    let sizes = settings.sizes();
    let count = sizes.room_count();
    let mut banks = Vec::with_capacity(alloc, count as usize)?;
    for room in 0..count {
        banks.push(format_room(alloc, sizes, room)?)?;
    }
    Ok(Memory::of(banks))
}

/// The bank of a room of formatted memory, by the room's number. Want of memory is the one refusal.
pub fn format_room(alloc: Global, sizes: Sizes, room: u32) -> Result<Bank, AllocError>
    requires valid { AreValid sizes }
    requires room { room < room_count sizes }
    ensures is { IfOk result (λ bank. bank ≡ formatted_bank sizes room) }
    ensures lines { IfOk result (λ bank. length bank.lines ≡ line_count sizes room) }
    ensures quiet { IfOk result (λ bank. (line : ℕ) → (line_at bank.lines line).pending ≡ []) }
    ensures tags { IfOk result (λ bank. (line : ℕ) → line < length bank.lines → tag_of (line_at bank.lines line).base ≡ 0) }
    ensures loads { room ≤ sizes.shards → IfOk result (λ bank. HasSameRecords (bank_load bank) (formatted (first_node live_layout sizes room))) }
{
    let bank = room_of(alloc, sizes, room)?;
    Ok(bank)
}

/// The bank of a room, by the kind of the room.
fn room_of(alloc: Global, sizes: Sizes, room: u32) -> Result<Bank, AllocError>
    requires valid { AreValid sizes }
    requires room { room < room_count sizes }
    ensures { IfOk result (λ bank. bank ≡ formatted_bank sizes room) }
{
    if room == sizes.super_room() {
        return line(alloc, [u64::from(FIRST_EPOCH), 0, 0, 0, 0, 0, 0, 0]);
    }
    if room > sizes.queue_room() {
        return line(alloc, [0; 8]);
    }
    let first = if room == sizes.queue_room() {
        QUEUE_FIRST
    } else {
        LIVE_HEADS.first_node()
    };
    cells(alloc, sizes.lines, first)
}

/// A room of so many lines whose header names this line as the first to be given out.
fn cells(alloc: Global, lines: u32, first: u64) -> Result<Bank, AllocError>
    requires { 0 < lines }
    ensures { IfOk result (λ bank. bank ≡ room_bank lines first) }
{
    let mut base = vec![in alloc; [0u64; 8]; lines as usize]?;
    base[0] = [0, first, 0, 0, 0, 0, 0, 0];
    Bank::of(alloc, base)
}

/// A room of one line.
fn line(alloc: Global, words: [u64; 8]) -> Result<Bank, AllocError>
    ensures { IfOk result (λ bank. bank ≡ line_bank words) }
{
    let mut base = Vec::with_capacity(alloc, 1)?;
    base.push(words)?;
    Bank::of(alloc, base)
}
