//! What is read off a room as it is taken, and as it goes home.

ghost use Rattle.std.specs.Prelude.{◌≡◌, ◌<◌, length};
ghost use Rattle.room_model.specs.MapRoom.{live_layout};
ghost use Rattle.room_model.specs.Rooms.{point_in};
ghost use Rattle.room_model.specs.Banks.{memory_words};
ghost use Rattle.rooms.specs.Rooms.{end_of};
ghost use Rattle.plain_yard.specs.Seats.{empty_here, position_here};

use crate::seat::Position;
use line_memory::Bank;
use restart_point::ThreadEnd;
use seq_object::RestartPoint;
use yard_model::Room;

/// Whether this is a queue room with no item.
pub(crate) fn is_empty_queue(room: &Room) -> bool
    ensures { result ≡ empty_here room.now }
{
    match room {
        Room::Queue(queue) => queue.is_empty(),
        Room::Map(_) | Room::Thread(_) | Room::Super(_) => false,
    }
}

/// The end of a thread's room, and of another what stands for none.
pub(crate) fn end_in(room: &Room) -> ThreadEnd
    ensures { result ≡ end_of room.now }
{
    match room {
        Room::Thread(own) => own.end(),
        Room::Map(_) | Room::Queue(_) | Room::Super(_) => ThreadEnd::Ready,
    }
}

/// What is known of a thread's room as it is taken in an epoch; nothing of another.
pub(crate) fn position_in(room: &Room, epoch: u32) -> Option<Position>
    ensures { result ≡ position_here room.now epoch }
{
    match room {
        Room::Thread(own) => Some(Position {
            point: RestartPoint {
                position: own.position(),
            },
            in_memory: point_in_memory(own.cells().bank(), epoch),
            end: own.end(),
        }),
        Room::Map(_) | Room::Queue(_) | Room::Super(_) => None,
    }
}

/// The restart point that memory has in the first line at an epoch: of the backup where the line is tagged with it.
fn point_in_memory(bank: &Bank, epoch: u32) -> RestartPoint
    requires { 0 < length bank.now.lines }
    ensures { result ≡ point_in live_layout (memory_words epoch bank.now) }
{
    let base = bank.base(0);
    RestartPoint {
        position: if base[6] == u64::from(epoch) {
            base[3]
        } else {
            base[0]
        },
    }
}
