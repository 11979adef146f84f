//! A yard is made of a world, and a seat for each thread.

ghost use Rattle.std.specs.Prelude.{◌≡◌, ◌≤◌, ◌<◌, [], ◌∷◌, IfOk, IfErr, length, map, vec_capacity};
ghost use Rattle.yard_model.specs.declared.view.Beginning.{Beginning as TheBeginning};
ghost use Rattle.seq_object.specs.Sizes.{IsValid};
ghost use Rattle.yard_model.specs.Beginnings.{opening_of};
ghost use Rattle.room_yard.specs.World.{CanOpen, Begins, Opens, beginning_with};
ghost use Rattle.shared_yard.specs.Rule.{opening_knowns};
ghost use Rattle.shared_yard.specs.Seats.{known_at, opening_known, AreOpeningSeats, AreDealt};
ghost use Rattle.shared_yard.specs.Openings.{AreOpeningLists};

use crate::emptied::{Emptied, slotted, unslotted};
use crate::opening::{Lists, Parts};
use crate::rule::{TableSeat, YardTable};
use crate::seat::YardSeat;
use crate::shares::First;
use crate::yard::SharedYard;
use atomic_table::{Refused, Table};
use room_yard::{World, WorldParts};
use seq_object::{Command, Settings};
use std::alloc::Global;
use std::snapshot::Snapshot;
use yard_model::{Beginning, Phase};

/// No yard could be made, for want of memory.
#[derive(Drop)]
pub struct NoYard {
    /// The world, as it was.
    pub world: World,
}

impl SharedYard {
    /// The yard of a world, with which a life of these settings and scripts opens, and a seat for each thread. Its power is off where
    /// the tick word is at least `limit`, a number of events. It takes all memory that the yard ever needs. The cause of a refusal is
    /// want of memory; the world is handed back as it was.
    pub fn new(
        alloc: Global,
        world: World,
        settings: Settings,
        scripts: &[Vec<Command>],
        limit: u32,
    ) -> Result<(SharedYard, Vec<YardSeat>), NoYard>
        requires opens { CanOpen settings (map (λ s. s.items) scripts.now) limit world }
        ensures beginning { IfOk result (λ y. y.0.beginning ≡ beginning_with settings (map (λ s. s.items) scripts.now) limit world) }
        ensures opens { (b : TheBeginning) → Begins settings (map (λ s. s.items) scripts.now) limit b → Opens b world → IfOk result (λ y. (opening_of y.0.beginning ≡ opening_of b) × Opens y.0.beginning world) }
        ensures seats { IfOk result (λ y. AreOpeningSeats y.0 y.1.items) }
        ensures same { IfErr result (λ refusal. refusal.world ≡ world) }
    {
        match Parts::of(alloc, &world, settings, scripts, limit) {
            Ok(parts) => SharedYard::opening(alloc, world, parts.beginning, parts.lists),
            Err(_) => Err(NoYard { world }),
        }
    }

    /// The yard of a world with which a life opens that begins so, and the seats of its threads.
    fn opening(
        alloc: Global,
        world: World,
        beginning: Beginning,
        lists: Lists,
    ) -> Result<(SharedYard, Vec<YardSeat>), NoYard>
        requires opens { Opens beginning world }
        requires lists { AreOpeningLists beginning.settings.threads (length world.rooms) world.arrival lists }
        ensures beginning { IfOk result (λ y. y.0.beginning ≡ beginning) }
        ensures seats { IfOk result (λ y. AreOpeningSeats y.0 y.1.items) }
        ensures same { IfErr result (λ refusal. refusal.world ≡ world) }
    {
        let Lists {
            words,
            seats,
            slots,
            rooms,
        } = lists;
        let WorldParts {
            rooms: at_home,
            arrival,
            clock,
            held,
            spare,
        } = world.into_parts();
        let key = Snapshot::of(&beginning);
        match Table::new(alloc, words.as_slice(), slotted(at_home, slots), &key) {
            Ok((table, all)) => {
                let seats = deal(&table, &beginning, all, seats);
                let emptied = Emptied {
                    rooms,
                    held,
                    banks: spare,
                };
                Ok((
                    SharedYard {
                        table,
                        beginning,
                        emptied,
                    },
                    seats,
                ))
            }
            Err(Refused { slots }) => Err(NoYard {
                world: World::of(WorldParts {
                    rooms: unslotted(slots, rooms),
                    arrival,
                    clock,
                    held,
                    spare,
                }),
            }),
        }
    }
}

/// A seat for each thread, each split off a seat with what all of them know as a life opens; the last thread has what is left. It takes no
/// memory.
fn deal(
    table: &YardTable,
    beginning: &Beginning,
    all: TableSeat,
    seats: Vec<YardSeat>,
) -> Vec<YardSeat>
    requires valid { IsValid beginning.now.settings }
    requires table { all.table_id ≡ table.now.shared.table_id }
    requires words { 0 < table.now.shared.table_id.words }
    requires all { all.me ≡ (opening_knowns beginning.now, []) }
    requires empty { seats.items ≡ [] }
    requires room { beginning.now.settings.threads ≤ vec_capacity seats }
    ensures { AreDealt table.now.shared.table_id beginning.now beginning.now.settings.threads result.items }
{
    let mut rest = all;
    let mut dealt = seats;
    let last = beginning.settings.threads - 1;
    for thread in 0..last {
        let seat = table.shared.split_seat::<First>(&mut rest);
        dealt.push_reserved(opening_seat(seat, beginning, thread));
    }
    dealt.push_reserved(opening_seat(rest, beginning, last));
    dealt
}

/// The seat of a thread as a life opens.
fn opening_seat(seat: TableSeat, beginning: &Beginning, thread: u32) -> YardSeat
    requires valid { IsValid beginning.now.settings }
    requires thread { thread < beginning.now.settings.threads }
    requires known { seat.me.0 ≡ opening_known beginning.now thread ∷ [] }
    requires slots { seat.me.1 ≡ [] }
    ensures table { result.seat.table_id ≡ seat.table_id }
    ensures known { known_at result ≡ opening_known beginning.now thread }
{
    YardSeat {
        seat,
        thread,
        phase: Phase::Standing,
        room: None,
        ran: 0,
        off: false,
    }
}
