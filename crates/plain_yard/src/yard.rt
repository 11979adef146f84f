//! The whole yard, which one thread owns.

ghost use Rattle.std.specs.Prelude.{◌≡◌, ◌<◌, ◌^◌, length, map, slice_get, Some, IfOk, IfErr};
ghost use Rattle.line_memory.specs.Line.{all_lines};
ghost use Rattle.yard_model.specs.declared.view.Beginning.{Beginning as TheBeginning};
ghost use Rattle.yard_model.specs.Beginnings.{opening_of};
ghost use Rattle.yard_model.specs.World.{arrival, clock};
ghost use Rattle.yard_model.specs.Conditions.{MayLock, MayTick};
ghost use Rattle.yard_model.specs.Lives.{IsMemoryOf, NamesDead};
ghost use Rattle.room_yard.specs.World.{CanOpen, Begins, Opens, beginning_with, memory_of};
ghost use Rattle.room_yard.specs.Calls.{MayReturn, MayTryStand, MayTryLeave, MayTryClaim, MayDrawEntry, MayGiveUp, MayEndEpoch, room_held};
ghost use Rattle.room_yard.specs.Answers.{Locked, LockIsHeld, Unlocked, TurnedOff, Ticked, SawPower, Stood, StandIsRefused, HasLeft, LeaveRests, Claimed, ClaimRests, Drew, Retreated, EndedEpoch};
ghost use Rattle.plain_yard.specs.Opening.{commands_in, AreOpeningLists};
ghost use Rattle.plain_yard.specs.Shown.{view_at, opening_told, IsThread, IsLawfulYard, NoneHolds, AreAtHome};

use crate::emptied::{Emptied, dead_among, gathered, placed};
use crate::opening::{Lists, Parts};
use crate::room::{end_in, is_empty_queue};
use crate::seat::{Drawn, Seat};
use crate::word::bit_of;
use life_model::Mark;
use restart_point::{Arrival, ThreadEnd};
use room_yard::{
    Held, HoldsLock, Rest, World, WorldParts, allows_claim, allows_leave, word_of_epoch,
};
use seq_object::{Command, Entry, Settings};
use std::alloc::Global;
use std::marker::Model;
use yard_model::{Beginning, Phase, Room};

/// No yard could be made, for want of memory.
#[derive(Drop)]
pub struct NoYard {
    /// The world, as it was.
    pub world: World,
}

/// A yard of rooms: its words, the rooms at home, a seat for each thread, and what the life began with.
#[derive(Drop)]
pub struct PlainYard {
    beginning: Beginning,
    tick: u64,
    arrival: u64,
    /// How many entries the last checkpoint covers.
    covered: u64,
    locks: Vec<u64>,
    rooms: Vec<Option<Room>>,
    seats: Vec<Seat>,
    log: Vec<Drawn>,
    emptied: Emptied,
}

impl Model for PlainYard {
    ghost use Rattle.plain_yard.specs.Shown.{ShownYard};

    ghost Value = { ShownYard };

    ghost use Rattle.plain_yard.specs.Kept.{shown_yard, IsKeptYard};

    ghost view = { shown_yard };

    ghost invariant = { IsKeptYard };
}

impl PlainYard {
    /// The yard of a world, with which a life of these settings and scripts opens. Its power is off where the tick word is 2^63 at
    /// least. It takes all memory that the yard ever needs: a list for each kind of thing, and a place for an entry of
    /// each command. The cause of a refusal is want of memory; the world is handed back as it was.
    pub fn of(
        alloc: Global,
        world: World,
        settings: Settings,
        scripts: &[Vec<Command>],
    ) -> Result<PlainYard, NoYard>
        requires opens { CanOpen settings (map (λ s. s.items) scripts.now) (2 ^ 63) world }
        ensures beginning { IfOk result (λ yard. yard.beginning ≡ beginning_with settings (map (λ s. s.items) scripts.now) (2 ^ 63) world) }
        ensures opens { (b : TheBeginning) → Begins settings (map (λ s. s.items) scripts.now) (2 ^ 63) b → Opens b world → IfOk result (λ yard. (opening_of yard.beginning ≡ opening_of b) × Opens yard.beginning world) }
        ensures told { IfOk result (λ yard. yard.told ≡ opening_told yard.beginning world) }
        ensures lawful { IfOk result (λ yard. IsLawfulYard yard) }
        ensures same { IfErr result (λ refusal. refusal.world ≡ world) }
    {
        match Parts::of(alloc, &world, settings, scripts) {
            Ok(parts) => Ok(PlainYard::opening(world, parts.beginning, parts.lists)),
            Err(_) => Err(NoYard { world }),
        }
    }

    /// The yard of a world with which a life opens that begins so. It takes no memory.
    fn opening(world: World, beginning: Beginning, lists: Lists) -> PlainYard
        requires opens { Opens beginning world }
        requires lists { AreOpeningLists beginning.settings.threads (length world.rooms) (commands_in beginning.scripts) lists }
        ensures is { result ≡ record { beginning = beginning; told = opening_told beginning world } }
        ensures lawful { IsLawfulYard result }
    {
        let Lists {
            locks,
            seats,
            log,
            places,
            rooms,
        } = lists;
        let parts = world.into_parts();
        PlainYard {
            beginning,
            tick: 0,
            arrival: parts.arrival,
            covered: 0,
            locks,
            rooms: placed(parts.rooms, places),
            seats,
            log,
            emptied: Emptied {
                rooms,
                held: parts.held,
                banks: parts.spare,
            },
        }
    }

    /// The world of the yard, when no thread holds a room: its rooms as they are, and the numbers of those that were given back in
    /// mid-work. It takes no memory.
    pub fn take_apart(self) -> World
        requires home { NoneHolds self }
        ensures rooms { AreAtHome self.told.world result.rooms }
        ensures arrival { result.arrival ≡ arrival self.told.world }
        ensures clock { result.clock ≡ clock self.told.world }
        ensures held { NamesDead self.beginning self.told.world result.held }
        ensures memory { IsMemoryOf self.beginning self.told.world (memory_of result.rooms) }
        ensures number { length result.rooms < 2 ^ 32 }
        ensures lines { all_lines (memory_of result.rooms) < 2 ^ 32 }
        ensures lawful { IsLawfulYard self }
    {
        let PlainYard {
            beginning: _,
            tick: _,
            arrival,
            covered: _,
            locks,
            rooms,
            seats: _,
            log,
            emptied,
        } = self;
        World::of(WorldParts {
            rooms: gathered(rooms, emptied.rooms),
            arrival,
            clock: log.len() as u64,
            held: dead_among(locks.as_slice(), emptied.held),
            spare: emptied.banks,
        })
    }

    /// The arrival word. The yard is lawful, as it is between any two calls.
    pub fn arrival(&self) -> u64
        ensures word { result ≡ arrival self.now.told.world }
        ensures lawful { IsLawfulYard self.now }
    {
        self.arrival
    }

    /// How many entries were drawn.
    pub fn entries(&self) -> u64
        ensures number { result ≡ length self.now.told.history }
        ensures lawful { IsLawfulYard self.now }
    {
        self.log.len() as u64
    }

    /// The entry at this place of the history.
    pub fn entry(&self, place: u64) -> Entry
        requires place { place < length self.now.told.history }
        ensures entry { slice_get self.now.told.history place ≡ Some result }
        ensures lawful { IsLawfulYard self.now }
    {
        self.log[place as usize].entry
    }
}

impl PlainYard {
    /// Takes a room for a thread. `Held` comes exactly where its lock word is found not to be 0.
    pub(crate) fn lock(&mut self, thread: u32, room: u32) -> Result<Room, Held>
        requires thread { IsThread self.old thread }
        requires may { MayLock (view_at self.old thread) room }
        ensures same { self.new.beginning ≡ self.old.beginning }
        ensures lawful { IsLawfulYard self.new }
        ensures locked { IfOk result (λ value. Locked (view_at self.old thread) (Some self.old.told) room value (view_at self.new thread) (Some self.new.told)) }
        ensures held { IfErr result (λ held. LockIsHeld (view_at self.old thread) (Some self.old.told) room held (view_at self.new thread) (Some self.new.told)) }
    {
        let by = self.locks[room as usize];
        let seat = self.seats[thread as usize];
        if by != 0 {
            self.seats[thread as usize] = seat.looking(3 + u64::from(room), by);
            return Err(Held { by });
        }
        let value = self.rooms[room as usize].take().unwrap();
        let before = self.log.len() as u64;
        self.seats[thread as usize] = seat.locking(room, before, self.covered, &value);
        self.locks[room as usize] = u64::from(thread) + 1;
        Ok(value)
    }

    /// Gives a room of a thread back, with no command under way.
    pub(crate) fn unlock(&mut self, thread: u32, room: u32, value: Room)
        requires thread { IsThread self.old thread }
        requires may { MayReturn (view_at self.old thread) room value }
        ensures same { self.new.beginning ≡ self.old.beginning }
        ensures lawful { IsLawfulYard self.new }
        ensures done { Unlocked (view_at self.old thread) (Some self.old.told) room value (view_at self.new thread) (Some self.new.told) }
    {
        let empty = is_empty_queue(&value);
        let end = end_in(&value);
        let seat = self.seats[thread as usize];
        self.seats[thread as usize] = seat.freed(
            &self.beginning.settings,
            thread,
            room,
            empty,
            end,
        );
        self.locks[room as usize] = 0;
        self.rooms[room as usize] = Some(value);
    }

    /// Turns the power off for all threads.
    pub(crate) fn off(&mut self, thread: u32)
        requires thread { IsThread self.old thread }
        ensures same { self.new.beginning ≡ self.old.beginning }
        ensures lawful { IsLawfulYard self.new }
        ensures done { TurnedOff (view_at self.old thread) (Some self.old.told) (view_at self.new thread) (Some self.new.told) }
    {
        let seat = self.seats[thread as usize];
        self.seats[thread as usize] = seat.turning_off();
        self.tick = self.tick.max(1 << 63);
    }

    /// Counts one event of a thread.
    pub(crate) fn tick(&mut self, thread: u32)
        requires thread { IsThread self.old thread }
        requires may { MayTick (view_at self.old thread) }
        ensures same { self.new.beginning ≡ self.old.beginning }
        ensures lawful { IsLawfulYard self.new }
        ensures done { Ticked (view_at self.old thread) (Some self.old.told) (view_at self.new thread) (Some self.new.told) }
    {
        let seat = self.seats[thread as usize];
        self.seats[thread as usize] = seat.ticking();
        self.tick += 1;
    }

    /// Whether the power is on.
    pub(crate) fn powered(&mut self, thread: u32) -> bool
        requires thread { IsThread self.old thread }
        ensures same { self.new.beginning ≡ self.old.beginning }
        ensures lawful { IsLawfulYard self.new }
        ensures saw { SawPower (view_at self.old thread) (Some self.old.told) result (view_at self.new thread) (Some self.new.told) }
    {
        let off = self.tick >= self.beginning.limit;
        let seat = self.seats[thread as usize];
        self.seats[thread as usize] = seat.seeing(off);
        !off
    }

    /// Stands at the restart point, where no room is held.
    pub(crate) fn stand(&mut self, thread: u32) -> Result<(), HoldsLock>
        requires thread { IsThread self.old thread }
        requires may { MayTryStand (view_at self.old thread) }
        ensures same { self.new.beginning ≡ self.old.beginning }
        ensures lawful { IsLawfulYard self.new }
        ensures stood { IfOk result (λ _. Stood (view_at self.old thread) (Some self.old.told) (view_at self.new thread) (Some self.new.told)) }
        ensures refused { IfErr result (λ held. StandIsRefused (view_at self.old thread) (Some self.old.told) held (view_at self.new thread) (Some self.new.told)) }
    {
        let seat = self.seats[thread as usize];
        if let Some(holding) = seat.holding {
            return Err(HoldsLock { room: holding.room });
        }
        self.seats[thread as usize] = seat.standing();
        self.arrival |= bit_of(thread);
        Ok(())
    }

    /// Leaves the restart point, where the arrival word lets a thread of this end go.
    pub(crate) fn leave(&mut self, thread: u32, end: ThreadEnd) -> Result<u32, Rest>
        requires thread { IsThread self.old thread }
        requires may { MayTryLeave (view_at self.old thread) end }
        ensures same { self.new.beginning ≡ self.old.beginning }
        ensures lawful { IsLawfulYard self.new }
        ensures left { IfOk result (λ epoch. HasLeft (view_at self.old thread) (Some self.old.told) end epoch (view_at self.new thread) (Some self.new.told)) }
        ensures rests { IfErr result (λ rest. LeaveRests (view_at self.old thread) (Some self.old.told) end rest (view_at self.new thread) (Some self.new.told)) }
    {
        let found = self.arrival;
        let seat = self.seats[thread as usize];
        let looked = seat.looking(2, found);
        if allows_leave(found, end, seat.ran) {
            let epoch = Arrival::of(found).epoch;
            self.seats[thread as usize] = looked.running(epoch, self.beginning.settings.every);
            self.arrival = found & !bit_of(thread);
            Ok(epoch)
        } else {
            self.seats[thread as usize] = looked;
            Err(Rest { found, met: found })
        }
    }

    /// Begins to close the epoch, where the arrival word lets this thread.
    pub(crate) fn claim(&mut self, thread: u32) -> Result<(), Rest>
        requires thread { IsThread self.old thread }
        requires may { MayTryClaim (view_at self.old thread) }
        ensures same { self.new.beginning ≡ self.old.beginning }
        ensures lawful { IsLawfulYard self.new }
        ensures claimed { IfOk result (λ _. Claimed (view_at self.old thread) (Some self.old.told) (view_at self.new thread) (Some self.new.told)) }
        ensures rests { IfErr result (λ rest. ClaimRests (view_at self.old thread) (Some self.old.told) rest (view_at self.new thread) (Some self.new.told)) }
    {
        let found = self.arrival;
        let seat = self.seats[thread as usize];
        let looked = seat.looking(2, found);
        if allows_claim(found, self.beginning.settings.threads, seat.ran) {
            self.seats[thread as usize] = looked.closing();
            self.arrival = found | 1 << 16;
            Ok(())
        } else {
            self.seats[thread as usize] = looked;
            Err(Rest { found, met: found })
        }
    }

    /// Draws the next entry of a thread, and answers the number of entries drawn before.
    pub(crate) fn draw(&mut self, thread: u32, entry: Entry) -> u64
        requires thread { IsThread self.old thread }
        requires may { MayDrawEntry (view_at self.old thread) entry }
        ensures same { self.new.beginning ≡ self.old.beginning }
        ensures lawful { IsLawfulYard self.new }
        ensures done { Drew (view_at self.old thread) (Some self.old.told) entry result (view_at self.new thread) (Some self.new.told) }
    {
        let place = self.log.len() as u64;
        let seat = self.seats[thread as usize];
        self.seats[thread as usize] = seat.drawing(place, entry);
        self.log.push_reserved(Drawn {
            entry,
            epoch: seat.ran,
        });
        place
    }

    /// Gives a room of a thread back as it is.
    pub(crate) fn retreat(&mut self, thread: u32, room: u32, value: Room)
        requires thread { IsThread self.old thread }
        requires may { MayGiveUp (view_at self.old thread) room value }
        ensures same { self.new.beginning ≡ self.old.beginning }
        ensures lawful { IsLawfulYard self.new }
        ensures done { Retreated (view_at self.old thread) (Some self.old.told) room value (view_at self.new thread) (Some self.new.told) }
    {
        let seat = self.seats[thread as usize];
        self.seats[thread as usize] = seat.retreated(room);
        self.locks[room as usize] = u64::MAX;
        self.rooms[room as usize] = Some(value);
    }

    /// Ends the epoch that a thread closes, and acknowledges the checkpoint.
    pub(crate) fn release(&mut self, thread: u32, over: bool, fed: bool) -> Mark
        requires thread { IsThread self.old thread }
        requires may { MayEndEpoch (view_at self.old thread) over fed }
        ensures same { self.new.beginning ≡ self.old.beginning }
        ensures lawful { IsLawfulYard self.new }
        ensures done { EndedEpoch (view_at self.old thread) (Some self.old.told) over fed result (view_at self.new thread) (Some self.new.told) }
    {
        let seat = self.seats[thread as usize];
        let epoch = seat.ran + 1;
        let length = self.log.len() as u64;
        self.seats[thread as usize] = seat.released();
        self.arrival = word_of_epoch(self.beginning.settings.threads, over, fed, epoch);
        self.covered = length;
        Mark { epoch, length }
    }

    /// Where a thread is.
    pub(crate) fn phase(&self, thread: u32) -> Phase
        requires thread { IsThread self.now thread }
        ensures { result ≡ (view_at self.now thread).phase }
    {
        self.seats[thread as usize].phase
    }

    /// The number of the room that a thread holds.
    pub(crate) fn holds(&self, thread: u32) -> Option<u32>
        requires thread { IsThread self.now thread }
        ensures { result ≡ room_held (view_at self.now thread).grip }
    {
        self.seats[thread as usize].room()
    }

    /// Whether a thread saw the power off.
    pub(crate) fn is_off(&self, thread: u32) -> bool
        requires thread { IsThread self.now thread }
        ensures { result ≡ (view_at self.now thread).saw_off }
    {
        self.seats[thread as usize].saw_off
    }
}
