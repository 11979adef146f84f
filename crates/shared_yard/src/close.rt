//! A yard whose threads' seats are back leaves a world.

ghost use Rattle.std.specs.Prelude.{◌≡◌, ◌<◌, ◌^◌, [], length, map};
ghost use Rattle.line_memory.specs.Line.{all_lines};
ghost use Rattle.room_yard.specs.World.{memory_of};
ghost use Rattle.shared_yard.specs.Rule.{Each};
ghost use Rattle.shared_yard.specs.Seats.{known_at, AreAllSeats, IsBackAt};
ghost use Rattle.shared_yard.specs.Endings.{LeavesYard};

use crate::emptied::{dead_among, taken};
use crate::rule::{TableSeat, YardTable};
use crate::seat::YardSeat;
use crate::shares::Both;
use crate::yard::SharedYard;
use room_yard::{World, WorldParts};

impl SharedYard {
    /// The world of the yard, when the seats of all threads are back, and none holds a room: its rooms as they are, and the numbers of
    /// those that were given back in mid-work. It takes no memory.
    pub fn close(self, seats: Vec<YardSeat>) -> World
        requires seats { AreAllSeats self seats.items }
        ensures left { LeavesYard self seats.items result }
        ensures number { length result.rooms < 2 ^ 32 }
        ensures lines { all_lines (memory_of result.rooms) < 2 ^ 32 }
    {
        let SharedYard {
            table,
            beginning: _,
            emptied,
        } = self;
        let all = joined(&table, seats);
        let mut closed = table.close_with(all);
        let arrival = closed.word(2);
        let clock = closed.word(1);
        let held = dead_among(&closed, emptied.held);
        let rooms = taken(&mut closed, emptied.rooms);
        closed.free();
        World::of(WorldParts {
            rooms,
            arrival,
            clock,
            held,
            spare: emptied.banks,
        })
    }
}

/// A seat at which is known what is known at each of these. It takes no memory.
fn joined(table: &YardTable, seats: Vec<YardSeat>) -> TableSeat
    requires words { 0 < table.now.shared.table_id.words }
    requires some { 0 < length seats.items }
    requires seats { Each (IsBackAt table.now.shared.table_id) seats.items }
    ensures table { result.table_id ≡ table.now.shared.table_id }
    ensures known { result.me.0 ≡ map known_at seats.items }
{
    let mut others = seats.into_iter();
    let Some(first) = others.next() else {
        unreachable!()
    };
    let mut all = first.into_table_seat();
    for seat in others {
        table
            .shared
            .join_seat::<Both>(&mut all, seat.into_table_seat());
    }
    all
}
