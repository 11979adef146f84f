//! The yard that threads share.

ghost use Rattle.std.specs.Prelude.{◌≡◌, ◌≤◌, ◌+◌, [], vec_capacity};
ghost use Rattle.seq_object.specs.Sizes.{IsValid, room_count};
ghost use Rattle.yard_model.specs.Beginnings.{sizes_at};

use crate::emptied::Emptied;
use crate::rule::YardTable;
use yard_model::Beginning;

/// A yard of rooms, which threads share: the table of its words and rooms, and what the life began with. It may be shared among threads,
/// and a seat may be sent to another one.
#[derive(Drop)]
pub struct SharedYard {
    pub(crate) table: YardTable,
    pub(crate) beginning: Beginning,
    pub(crate) emptied: Emptied,
    ghost valid: { IsValid beginning.settings },
    ghost words: { table.shared.table_id.words ≡ 3 + room_count (sizes_at beginning) },
    ghost slots: { table.shared.table_id.slots ≡ room_count (sizes_at beginning) },
    ghost no_rooms: { (emptied.rooms.items ≡ []) × (room_count (sizes_at beginning) ≤ vec_capacity emptied.rooms) },
    ghost no_held: { (emptied.held.items ≡ []) × (room_count (sizes_at beginning) ≤ vec_capacity emptied.held) },
    ghost no_banks: { (emptied.banks.items ≡ []) × (room_count (sizes_at beginning) ≤ vec_capacity emptied.banks) },
}
