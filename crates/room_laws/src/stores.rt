//! From writes to the stores that carry them out. A write is of one record word; its stores are the backup and the tag of the line, where
//! the epoch has not touched the line, and the word itself. So behind all of them the record words are those behind the writes.

ghost use Rattle.room_laws.specs.Stores.{PlannedWriteLaw, StoresLaw, StoresInPiecesLaw, CommandStoresLaw, StoresWithinLaw, CommandWithinLaw, StoreCountsLaw};

/// One more write is planned behind planned stores: of the record words one is changed. `r` is the room as the plan was begun.
pub fn planned_write_law()
    ensures { PlannedWriteLaw }
{}

/// More writes are planned behind planned stores, perhaps none: the record words are those behind the writes, in order. `r` is the room
/// as the plan was begun.
pub fn stores_law()
    ensures { StoresLaw }
{}

/// A list of writes may be planned piece by piece.
pub fn stores_in_pieces_law()
    ensures { StoresInPiecesLaw }
{}

/// Behind the planned stores of a command every room of a shard and the queue room stand for what the object holds after the command:
/// the command's own room by its stores, and each other one since it has none.
pub fn command_stores_law()
    ensures { CommandStoresLaw }
{}

/// Where writes go to record words of so many lines, their stores go to words 0 to 7 of these lines.
pub fn stores_within_law()
    ensures { StoresWithinLaw }
{}

/// The planned stores of a command go to words 0 to 7 of lines of the room.
pub fn command_within_law()
    ensures { CommandWithinLaw }
{}

/// A put has at most 18 stores, a removal 16, an item at the back 22, and the front item taken off 17. A plan that has room for these
/// never wants memory in the middle of a command.
pub fn store_counts_law()
    ensures { StoreCountsLaw }
{}
