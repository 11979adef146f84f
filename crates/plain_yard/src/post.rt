//! One thread's handle on the yard that it has whole.

ghost use Rattle.std.specs.Prelude.{◌≡◌};
ghost use Rattle.plain_yard.specs.Shown.{IsThread, IsLawfulYard};

use crate::yard::PlainYard;
use life_model::Mark;
use restart_point::ThreadEnd;
use room_yard::{Held, HoldsLock, Post, Rest};
use seq_object::Entry;
use std::marker::Model;
use yard_model::{Phase, Room};

/// A thread's handle, which has the yard.
#[derive(Drop)]
pub struct PlainPost {
    yard: PlainYard,
    thread: u32,
}

impl Model for PlainPost {
    ghost use Rattle.plain_yard.specs.Shown.{ShownPost};

    ghost Value = { ShownPost };

    ghost use Rattle.plain_yard.specs.Shown.{IsLawfulPost};

    ghost view = { λ a. record { yard = a.yard; thread = a.thread } };

    ghost invariant = { λ a. IsLawfulPost (record { yard = a.yard; thread = a.thread }) };
}

impl PlainPost {
    /// The handle of a thread, one of the yard's. It takes no memory.
    pub fn of(yard: PlainYard, thread: u32) -> PlainPost
        requires thread { IsThread yard thread }
        ensures yard { result.yard ≡ yard }
        ensures thread { result.thread ≡ thread }
    {
        let _word = yard.arrival();
        PlainPost { yard, thread }
    }

    /// The yard. It takes no memory.
    pub fn into_yard(self) -> PlainYard
        ensures is { result ≡ self.yard }
        ensures lawful { IsLawfulYard result }
    {
        let PlainPost { yard, thread: _ } = self;
        yard
    }
}

impl Post for PlainPost {
    ghost use Rattle.std.specs.Prelude.{Some, None};
    ghost use Rattle.plain_yard.specs.Shown.{view_of};

    ghost view = { view_of };

    ghost told = { λ p. Some p.yard.told };

    ghost own_marks = { λ p. None };

    fn phase(&self) -> Phase {
        self.yard.phase(self.thread)
    }

    fn thread(&self) -> u32 {
        self.thread
    }

    fn holds(&self) -> Option<u32> {
        self.yard.holds(self.thread)
    }

    fn is_off(&self) -> bool {
        self.yard.is_off(self.thread)
    }

    fn leave(&mut self, end: ThreadEnd) -> Result<u32, Rest> {
        self.yard.leave(self.thread, end)
    }

    fn lock(&mut self, room: u32) -> Result<Room, Held> {
        self.yard.lock(self.thread, room)
    }

    fn unlock(&mut self, room: u32, value: Room) {
        self.yard.unlock(self.thread, room, value);
    }

    fn retreat(&mut self, room: u32, value: Room) {
        self.yard.retreat(self.thread, room, value);
    }

    fn draw(&mut self, entry: Entry) -> u64 {
        self.yard.draw(self.thread, entry)
    }

    fn stand(&mut self) -> Result<(), HoldsLock> {
        self.yard.stand(self.thread)
    }

    fn claim(&mut self) -> Result<(), Rest> {
        self.yard.claim(self.thread)
    }

    fn release(&mut self, over: bool, fed: bool) -> Mark {
        self.yard.release(self.thread, over, fed)
    }

    fn powered(&mut self) -> bool {
        self.yard.powered(self.thread)
    }

    fn tick(&mut self) {
        self.yard.tick(self.thread);
    }

    fn off(&mut self) {
        self.yard.off(self.thread);
    }
}
