//! The lists that a yard keeps for the end of its life, in which no call takes memory.

ghost use Rattle.std.specs.Prelude.{◌≡◌, ◌≤◌, ◌<◌, ◌+◌, ℕ, false, [], length, map, Some, option_to_list, slice_index, slice_index_or, vec_capacity};
ghost use Rattle.std.specs.List.{flat_map};
ghost use Rattle.std.specs.Slots.{slots_items, slots_filled, slots_len, IsFull};
ghost use Rattle.shared_yard.specs.Endings.{AreDeadBelow};

use atomic_table::Closed;
use line_memory::Bank;
use std::alloc::Global;
use yard_model::Room;

/// Empty lists with room for each room, for its number, and for its bank.
#[derive(Drop)]
pub(crate) struct Emptied {
    pub rooms: Vec<Room>,
    pub held: Vec<u32>,
    pub banks: Vec<Bank>,
}

/// Each room in a slot. It takes no memory.
pub(crate) fn slotted(rooms: Vec<Room>, slots: Vec<Option<Room>>) -> Vec<Option<Room>>
    requires empty { slots.items ≡ [] }
    requires room { length rooms.items ≤ vec_capacity slots }
    ensures { result.items ≡ map Some rooms.items }
{
    let mut filled = slots;
    for room in rooms {
        filled.push_reserved(Some(room));
    }
    filled
}

/// The rooms in the slots, in order. It takes no memory.
pub(crate) fn unslotted(slots: Vec<Option<Room>>, rooms: Vec<Room>) -> Vec<Room>
    requires empty { rooms.items ≡ [] }
    requires room { length slots.items ≤ vec_capacity rooms }
    ensures items { result.items ≡ flat_map option_to_list slots.items }
    ensures room { vec_capacity result ≡ vec_capacity rooms }
{
    let mut gathered = rooms;
    for slot in slots {
        if let Some(room) = slot {
            gathered.push_reserved(room);
        }
    }
    gathered
}

/// Takes the rooms out of the slots of a table that no thread shares any more, in order. It takes no memory.
pub(crate) fn taken(closed: &mut Closed<Option<Room>, Global>, rooms: Vec<Room>) -> Vec<Room>
    requires full { IsFull closed.old.slots }
    requires empty { rooms.items ≡ [] }
    requires room { slots_len closed.old.slots ≤ vec_capacity rooms }
    ensures items { result.items ≡ flat_map option_to_list (slots_items closed.old.slots) }
    ensures taken { (k : ℕ) → k < slots_len closed.new.slots → slice_index_or (slots_filled closed.new.slots) k false ≡ false }
{
    let mut gathered = rooms;
    for slot in 0..closed.slot_count() {
        if let Some(room) = closed.take(slot) {
            gathered.push_reserved(room);
        }
    }
    gathered
}

/// The numbers of the rooms whose lock is dead, ascending. It takes no memory.
pub(crate) fn dead_among(closed: &Closed<Option<Room>, Global>, held: Vec<u32>) -> Vec<u32>
    requires full { IsFull closed.now.words }
    requires words { slots_len closed.now.words ≡ 3 + slots_len closed.now.slots }
    requires few { slots_len closed.now.slots < 4294967296 }
    requires empty { held.items ≡ [] }
    requires room { slots_len closed.now.slots ≤ vec_capacity held }
    ensures items { AreDeadBelow (slots_len closed.now.slots) (λ r. slice_index (slots_items closed.now.words) (3 + r)) result.items }
    ensures room { vec_capacity result ≡ vec_capacity held }
{
    let mut dead = held;
    for room in 0..closed.slot_count() {
        if closed.word(3 + room) == u64::MAX {
            dead.push_reserved(room as u32);
        }
    }
    dead
}
