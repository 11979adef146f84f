//! A room of any kind, and the calls that all kinds have.

use epoch_word::SuperRoom;
use incll_var::RestoreStep;
use line_memory::Bank;
use locked_map::MapRoom;
use locked_queue::QueueRoom;
use planned_cells::CellRoom;
use restart_point::ThreadRoom;

/// A room of a memory.
#[derive(Drop)]
pub enum Room {
    /// A shard of the map.
    Map(MapRoom),
    /// The queue.
    Queue(QueueRoom),
    /// The position of a thread.
    Thread(ThreadRoom),
    /// The memory epoch.
    Super(SuperRoom),
}

impl CellRoom for Room {
    ghost use Rattle.rooms.specs.Rooms.{cells_of, with_cells, words_of, IsIdle, IsWhole, HasCells};

    ghost cells = { cells_of };

    ghost with_cells = { with_cells };

    ghost words = { words_of };

    ghost IsIdle = { IsIdle };

    ghost IsWhole = { IsWhole };

    ghost HasCells = { HasCells };

    fn enter(&mut self, epoch: u32) {
        match self {
            Room::Map(room) => room.enter(epoch),
            Room::Queue(room) => room.enter(epoch),
            Room::Thread(room) => room.enter(epoch),
            Room::Super(_) => unreachable!(),
        }
    }

    fn close_begin(&mut self) -> u32 {
        match self {
            Room::Map(room) => room.close_begin(),
            Room::Queue(room) => room.close_begin(),
            Room::Thread(room) => room.close_begin(),
            Room::Super(_) => unreachable!(),
        }
    }

    fn close_next(&mut self) -> bool {
        match self {
            Room::Map(room) => room.close_next(),
            Room::Queue(room) => room.close_next(),
            Room::Thread(room) => room.close_next(),
            Room::Super(_) => unreachable!(),
        }
    }

    fn close_fence(&mut self) {
        match self {
            Room::Map(room) => room.close_fence(),
            Room::Queue(room) => room.close_fence(),
            Room::Thread(room) => room.close_fence(),
            Room::Super(_) => unreachable!(),
        }
    }

    fn restore_next(&mut self) -> RestoreStep {
        match self {
            Room::Map(room) => room.restore_next(),
            Room::Queue(room) => room.restore_next(),
            Room::Thread(room) => room.restore_next(),
            Room::Super(room) => {
                let _epoch = room.epoch();
                RestoreStep::Finished
            }
        }
    }

    fn is_idle(&self) -> bool {
        match self {
            Room::Map(room) => room.is_idle(),
            Room::Queue(room) => room.is_idle(),
            Room::Thread(room) => room.is_idle(),
            Room::Super(room) => {
                let _epoch = room.epoch();
                true
            }
        }
    }

    fn bank(&self) -> &Bank {
        match self {
            Room::Map(room) => room.bank(),
            Room::Queue(room) => room.bank(),
            Room::Thread(room) => room.bank(),
            Room::Super(room) => room.bank(),
        }
    }

    fn load(&self, line: u32, word: u32) -> u64 {
        match self {
            Room::Map(room) => room.load(line, word),
            Room::Queue(room) => room.load(line, word),
            Room::Thread(room) => room.load(line, word),
            Room::Super(room) => room.bank().load(line, word),
        }
    }

    fn into_bank(self) -> Bank {
        match self {
            Room::Map(room) => room.into_bank(),
            Room::Queue(room) => room.into_bank(),
            Room::Thread(room) => room.into_bank(),
            Room::Super(room) => room.into_bank(),
        }
    }
}
