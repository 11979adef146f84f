//! A thread's handle on the shared yard.

ghost use Rattle.std.specs.Prelude.{◌≡◌, [], ◌∷◌, None};
ghost use Rattle.yard_model.specs.declared.view.View.{View as TheView};
ghost use Rattle.room_yard.specs.Calls.{MayDrawEntry};
ghost use Rattle.room_yard.specs.Answers.{Drew as DrewAnswer};
ghost use Rattle.shared_yard.specs.Rule.{one_known, one_view};
ghost use Rattle.shared_yard.specs.Plays.{IsNow};
ghost use Rattle.shared_yard.specs.Hands.{IsHand};
ghost use Rattle.shared_yard.specs.Seats.{IsSeatOf, known_at};
ghost use Rattle.shared_yard.specs.Names.{AreOfYard, IsSeatAt};

use crate::name::YardName;
use crate::plays::{
    Claim, Draw, Drawn, Leave, Lock, Look, Note, Off, Power, Release, Retreat, Stand, Tick, Unlock,
};
use crate::rule::TableSeat;
use crate::seat::YardSeat;
use crate::yard::SharedYard;
use life_model::Mark;
use restart_point::{Arrival, ThreadEnd};
use room_yard::{Held, HoldsLock, Post, Rest, allows_claim, allows_leave, word_of_epoch};
use seq_object::Entry;
use std::marker::{Brand, PhantomData};
use yard_model::{Phase, Room};

/// A thread's handle on a yard that it shares, which the type names. It has the thread's seat at the table, and remembers of its view what
/// its calls answer.
pub struct SharedPost<'a, N: YardName> {
    yard: &'a SharedYard,
    seat: TableSeat,
    thread: u32,
    phase: Phase,
    /// The number of the room that the thread holds.
    room: Option<u32>,
    /// The epoch in which it last ran.
    ran: u32,
    /// Whether it saw the power off.
    off: bool,
    of: PhantomData<N>,
    ghost named: { AreOfYard yard.now N.table N.beginning },
    ghost seated: { seat.table_id ≡ yard.now.table.shared.table_id },
    ghost hand: { IsHand seat.me yard.now.beginning thread phase room ran off },
}

/// Draws an entry, which the type names.
fn draw_as<D: Drawn>(yard: &SharedYard, seat: &mut TableSeat, entry: Entry) -> u64
    requires entry { D.entry ≡ entry }
    requires seated { seat.old.table_id ≡ yard.now.table.shared.table_id }
    requires one { seat.old.me.0 ≡ one_known seat.old.me.0 ∷ [] }
    requires may { MayDrawEntry (one_view seat.old.me.0) entry }
    ensures seat { seat.new.table_id ≡ seat.old.table_id }
    ensures view { (w : TheView) × DrewAnswer (one_view seat.old.me.0) None entry result w None × IsNow seat.old.me w seat.old.me.1 seat.new.me }
{
    yard.table.shared.fetch_add::<Draw<D>>(seat, 1, 1)
}

impl<N: YardName> Post for SharedPost<'_, N> {
    ghost use Rattle.std.specs.Prelude.{Some, None};
    ghost use Rattle.shared_yard.specs.Rule.{one_known, one_view};

    ghost view = { λ p. one_view p.seat.me.0 };

    ghost told = { λ _. None };

    ghost own_marks = { λ p. Some (one_known p.seat.me.0).own };

    fn phase(&self) -> Phase {
        self.phase
    }

    fn thread(&self) -> u32 {
        self.thread
    }

    fn holds(&self) -> Option<u32> {
        self.room
    }

    fn is_off(&self) -> bool {
        self.off
    }

    fn leave(&mut self, end: ThreadEnd) -> Result<u32, Rest> {
        let yard = self.yard;
        let found = yard.table.shared.load::<Look>(&mut self.seat, 2);
        if !allows_leave(found, end, self.ran) {
            return Err(Rest { found, met: found });
        }
        let met = yard
            .table
            .shared
            .compare_exchange::<Leave>(&mut self.seat, 2, found, found & !(1 << self.thread));
        if met != found {
            return Err(Rest { found, met });
        }
        self.phase = Phase::Running;
        self.ran = Arrival::of(found).epoch;
        Ok(self.ran)
    }

    fn lock(&mut self, room: u32) -> Result<Room, Held> {
        let yard = self.yard;
        let found = yard.table.shared.compare_exchange::<Lock>(
            &mut self.seat,
            3 + room as usize,
            0,
            u64::from(self.thread) + 1,
        );
        if found != 0 {
            return Err(Held { by: found });
        }
        let value = yard
            .table
            .shared
            .exchange(&mut self.seat, room as usize, None)
            .unwrap();
        self.room = Some(room);
        Ok(value)
    }

    fn unlock(&mut self, room: u32, value: Room) {
        let yard = self.yard;
        yard.table
            .shared
            .exchange(&mut self.seat, room as usize, Some(value));
        yard.table
            .shared
            .swap::<Unlock>(&mut self.seat, 3 + room as usize, 0);
        self.room = None;
    }

    fn retreat(&mut self, room: u32, value: Room) {
        let yard = self.yard;
        yard.table
            .shared
            .exchange(&mut self.seat, room as usize, Some(value));
        yard.table
            .shared
            .swap::<Retreat>(&mut self.seat, 3 + room as usize, u64::MAX);
        self.room = None;
    }

    fn draw(&mut self, entry: Entry) -> u64 {
        draw_as::<Brand>(self.yard, &mut self.seat, entry)
    }

    fn stand(&mut self) -> Result<(), HoldsLock> {
        if let Some(room) = self.room {
            return Err(HoldsLock { room });
        }
        let yard = self.yard;
        yard.table
            .shared
            .fetch_or::<Stand>(&mut self.seat, 2, 1 << self.thread);
        self.phase = Phase::Standing;
        Ok(())
    }

    fn claim(&mut self) -> Result<(), Rest> {
        let yard = self.yard;
        let found = yard.table.shared.load::<Look>(&mut self.seat, 2);
        if !allows_claim(found, yard.beginning.settings.threads, self.ran) {
            return Err(Rest { found, met: found });
        }
        let met = yard
            .table
            .shared
            .compare_exchange::<Claim>(&mut self.seat, 2, found, found | 1 << 16);
        if met != found {
            return Err(Rest { found, met });
        }
        self.phase = Phase::Closing;
        Ok(())
    }

    fn release(&mut self, over: bool, fed: bool) -> Mark {
        let yard = self.yard;
        let length = yard.table.shared.load::<Note>(&mut self.seat, 1);
        let epoch = self.ran + 1;
        let word = word_of_epoch(yard.beginning.settings.threads, over, fed, epoch);
        yard.table.shared.swap::<Release>(&mut self.seat, 2, word);
        self.phase = Phase::Standing;
        Mark { epoch, length }
    }

    fn powered(&mut self) -> bool {
        let yard = self.yard;
        let found = yard.table.shared.load::<Power>(&mut self.seat, 0);
        let on = found < yard.beginning.limit;
        self.off = self.off || !on;
        on
    }

    fn tick(&mut self) {
        let yard = self.yard;
        yard.table.shared.fetch_add::<Tick>(&mut self.seat, 0, 1);
    }

    fn off(&mut self) {
        let yard = self.yard;
        yard.table
            .shared
            .fetch_max::<Off>(&mut self.seat, 0, 1 << 63);
        self.off = true;
    }
}

impl<N: YardName> SharedPost<'_, N> {
    /// The thread's seat. It takes no memory.
    pub fn into_seat(self) -> YardSeat
        ensures of { IsSeatAt N.table N.beginning result }
        ensures known { known_at result ≡ one_known self.entry.seat.me.0 }
    {
        let SharedPost {
            yard: _,
            seat,
            thread,
            phase,
            room,
            ran,
            off,
            of: _,
        } = self;
        YardSeat {
            seat,
            thread,
            phase,
            room,
            ran,
            off,
        }
    }
}

impl SharedYard {
    /// The handle of the thread of a seat of this yard, which `N` names. It takes no memory.
    pub fn post<N: YardName>(&self, seat: YardSeat) -> SharedPost<'_, N>
        requires named { AreOfYard self.now N.table N.beginning }
        requires seat { IsSeatOf self.now seat }
        ensures known { one_known result.seat.me.0 ≡ known_at seat }
    {
        let YardSeat {
            seat,
            thread,
            phase,
            room,
            ran,
            off,
        } = seat;
        SharedPost {
            yard: self,
            seat,
            thread,
            phase,
            room,
            ran,
            off,
            of: PhantomData,
        }
    }
}
