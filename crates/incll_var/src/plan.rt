//! Plans: stores that are to be made one after the other. A plan has room of its own for more stores, so that what must
//! take no memory can still plan.

ghost use Rattle.std.specs.Prelude.{◌≡◌, ◌∷◌, [], ◌<◌, ◌≤◌, length, OnOk, OnErr};
ghost use Rattle.room_model.specs.Writes.{touches};
ghost use Rattle.incll_var.specs.Plans.{filled, with_places, plan_behind, cleared, line_in, store_in};

use room_model::PlannedStore;
use std::alloc::{AllocError, Global};
use std::collections::VecDeque;
use std::marker::Model;
use std::mem;

/// Stores that are planned, in order, and room for more.
#[derive(Drop)]
pub struct Plan {
    stores: VecDeque<PlannedStore>,
    spare: u32,
}

impl Model for Plan {
    ghost use Rattle.std.specs.Prelude.{◌+◌, ◌<◌, ◌≤◌, ◌^◌};
    ghost use Rattle.std.specs.VecDeque.{deque_len, deque_capacity};
    ghost use Rattle.incll_var.specs.Plans.{PlanState};

    ghost Value = { PlanState };

    ghost view = { λ a. record { stores = a.stores.items; spare = a.spare } };

    ghost invariant = { λ a. (deque_len a.stores + a.spare ≤ deque_capacity a.stores) × (deque_len a.stores + a.spare < 2 ^ 32) };
}

impl Plan {
    /// The empty plan, without room. It takes no memory yet.
    pub fn new(alloc: Global) -> Plan
        ensures { result ≡ record { stores = []; spare = 0 } }
    {
        Plan {
            stores: VecDeque::new(alloc),
            spare: 0,
        }
    }

    /// How many stores are left.
    pub fn left(&self) -> u32
        ensures { result ≡ length self.now.stores }
    {
        let _spare = self.spare;
        self.stores.len() as u32
    }

    /// How many stores can be planned without memory.
    pub fn spare(&self) -> u32
        ensures { result ≡ self.now.spare }
    {
        self.spare
    }

    /// Makes room for `n` more stores at least, and takes no room away; the stores that are left stay. It refuses for want
    /// of memory, and where the stores would be more than 2^32 - 1. Refused, it leaves the plan as it was.
    pub fn reserve(&mut self, n: u32) -> Result<(), AllocError>
        ensures enough { OnOk result (n ≤ self.new.spare) }
        ensures same { self.new ≡ record self.old { spare = self.new.spare } }
        ensures kept { self.old.spare ≤ self.new.spare }
        ensures refused { OnErr result (self.new ≡ self.old) }
    {
        if self.spare >= n {
            return Ok(());
        }
        let missing = n - self.spare;
        self.make_room(missing)
    }

    /// Drops the stores that are left. Their room stays.
    pub fn clear(&mut self)
        ensures { self.new ≡ cleared self.old }
    {
        self.spare += self.stores.len() as u32;
        self.stores.clear();
    }

    /// Takes the plan out, with its stores and its room, and leaves the empty plan without room. It takes no memory.
    pub fn take(&mut self) -> Plan
        ensures plan { result ≡ self.old }
        ensures empty { self.new ≡ record { stores = []; spare = 0 } }
    {
        let empty = Plan::new(*self.stores.allocator());
        mem::replace(self, empty)
    }

    /// Makes room for `n` more stores than there is room for.
    pub(crate) fn make_room(&mut self, n: u32) -> Result<(), AllocError>
        ensures ok { OnOk result (self.new ≡ with_places self.old n) }
        ensures refused { OnErr result (self.new ≡ self.old) }
    {
        let taken = self.stores.len() + self.spare as usize;
        if taken > (u32::MAX - n) as usize {
            return Err(AllocError);
        }
        let spare = self.spare + n;
        self.stores.reserve(spare as usize)?;
        self.spare = spare;
        Ok(())
    }

    /// Whether a store of the plan is to this line.
    pub(crate) fn touches(&self, line: u32) -> bool
        ensures { result ≡ touches line self.now.stores }
    {
        for place in 0..self.left() {
            if self.line_of(place) == line {
                return true;
            }
        }
        false
    }

    /// The line of the store of number `place`, counted from 0.
    pub(crate) fn line_of(&self, place: u32) -> u32
        requires { place < length self.now.stores }
        ensures { result ≡ line_in self.now.stores place }
    {
        let _spare = self.spare;
        self.stores[place as usize].line
    }

    /// The store of number `place`, counted from 0.
    pub(crate) fn store_at(&self, place: u32) -> PlannedStore
        requires { place < length self.now.stores }
        ensures { result ≡ store_in self.now.stores place }
    {
        let _spare = self.spare;
        self.stores[place as usize]
    }

    /// Plans a store behind the others, in the room that was made.
    pub(crate) fn push(&mut self, store: PlannedStore)
        requires { 0 < self.old.spare }
        ensures { self.new ≡ filled self.old (store ∷ []) }
    {
        self.stores.push_back_reserved(store);
        self.spare -= 1;
    }

    /// Takes the first store out of the plan.
    pub(crate) fn take_first(&mut self) -> PlannedStore
        requires { 0 < length self.old.stores }
        ensures first { self.old.stores ≡ result ∷ self.new.stores }
        ensures rest { self.new ≡ plan_behind self.old }
    {
        self.spare += 1;
        self.stores.pop_front().unwrap()
    }
}
