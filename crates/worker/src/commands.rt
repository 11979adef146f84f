//! The rows of a thread that carries out a command: its room is locked and the command begins, its stores are made, its entry is drawn, and
//! the room goes home.

ghost use Rattle.std.specs.Prelude.{◌≡◌, ◌<◌, ◌≤◌, nat_lt, true, Ok};
ghost use Rattle.room_in_hand.specs.Working.{MayBeginIn, stores_left as left_in, stored};
ghost use Rattle.room_yard.specs.Told.{IsTold};
ghost use Rattle.worker_model.specs.Workers.{IsWorker, MarksFollow};
ghost use Rattle.worker_model.specs.Turns.{GoesOnCommand, DoesAlone, Draws, Unlocks, one_carried_out, with_none_found, LocksForCommand, may_command, at_gate};
ghost use Rattle.worker.specs.Rows.{MayTakeRow};
ghost use Rattle.worker.specs.Begun.{MayBeginAt, BeginsIn, BeginsAt, Takes};

use crate::gate::Gate;
use crate::worker::Worker;
use room_in_hand::{begin_command, make_store, note_entry, of_its_type, stores_left};
use room_yard::{Held, Post};
use rooms::Room;
use seq_object::{Command, Entry, Reply, route};
use std::alloc::AllocError;
use worker_model::{Hand, Turn};
use yard_model::Phase;

/// What came of a command that was to begin.
#[derive(Drop)]
pub(crate) enum Begun {
    /// Its room is in hand, entered; with a reply the command is under way, and without one its take found the queue empty.
    Goes(Option<Reply>, Room),
    /// The lock of its room is another thread's.
    Waits(Held),
    /// There was no memory for it. The power is off, and the room is in hand as it was.
    Starves(Room, AllocError),
}

impl Worker {
    /// Makes the next store of the command under way; where none is left, draws its entry and notes it in the room.
    pub(crate) fn go_on_command<P: Post>(&mut self, post: &mut P, reply: Reply, room: Room) -> Turn
        requires may { MayTakeRow self.old (Hand.Commands reply room) (P.view post.old) (P.told post.old) }
        ensures told { IsTold (P.told post.new) (P.view post.new) }
        ensures marks { MarksFollow (P.own_marks post.old) (P.own_marks post.new) self.old.marks self.new.marks }
        ensures worker { IsWorker self.new (P.view post.new) }
        ensures turn { GoesOnCommand (nat_lt 0 (left_in room)) reply room self.old (P.view post.old) (P.told post.old) (Ok result) self.new (P.view post.new) (P.told post.new) }
    {
        if stores_left(&room) > 0 {
            self.store(post, reply, room)
        } else {
            self.draw(post, reply, room)
        }
    }

    /// Unlocks the room of a command whose entry is drawn.
    pub(crate) fn end_command<P: Post>(&mut self, post: &mut P, room: Room) -> Turn
        requires may { MayTakeRow self.old (Hand.Drawn room) (P.view post.old) (P.told post.old) }
        ensures told { IsTold (P.told post.new) (P.view post.new) }
        ensures marks { MarksFollow (P.own_marks post.old) (P.own_marks post.new) self.old.marks self.new.marks }
        ensures worker { IsWorker self.new (P.view post.new) }
        ensures turn { Unlocks room (one_carried_out self.old) (P.view post.old) (P.told post.old) (Ok result) self.new (P.view post.new) (P.told post.new) }
    {
        let Some(number) = post.holds() else {
            unreachable!()
        };
        post.unlock(number, room);
        self.position += 1;
        self.quota -= 1;
        self.passed = false;
        self.done += 1;
        Turn::Did
    }

    /// Unlocks the queue room, which a take found empty.
    pub(crate) fn end_take<P: Post>(&mut self, post: &mut P, room: Room) -> Turn
        requires may { MayTakeRow self.old (Hand.NoItem room) (P.view post.old) (P.told post.old) }
        ensures told { IsTold (P.told post.new) (P.view post.new) }
        ensures marks { MarksFollow (P.own_marks post.old) (P.own_marks post.new) self.old.marks self.new.marks }
        ensures worker { IsWorker self.new (P.view post.new) }
        ensures turn { Unlocks room (with_none_found self.old) (P.view post.old) (P.told post.old) (Ok result) self.new (P.view post.new) (P.told post.new) }
    {
        post.unlock(self.settings.shards, room);
        self.found_empty = true;
        self.done += 1;
        Turn::Did
    }

    /// Passes the gate the first time, locks the room of the next command, enters the epoch, and begins the command. Where the lock is taken
    /// the turn waits. Where there is no memory for the command the power is turned off, and the room stays in hand.
    pub(crate) fn lock_for_command<P: Post, G: Gate>(
        &mut self,
        post: &mut P,
        gate: &G,
    ) -> Result<Turn, AllocError>
        requires may { MayTakeRow self.old Hand.Empty (P.view post.old) (P.told post.old) }
        requires phase { (P.view post.old).phase ≡ Phase.Running }
        requires some { may_command self.old ≡ true }
        ensures told { IsTold (P.told post.new) (P.view post.new) }
        ensures marks { MarksFollow (P.own_marks post.old) (P.own_marks post.new) self.old.marks self.new.marks }
        ensures worker { IsWorker self.new (P.view post.new) }
        ensures turn { LocksForCommand self.old (P.view post.old) (P.told post.old) result self.new (P.view post.new) (P.told post.new) }
    {
        let command = self.commands[self.position as usize];
        let number = route(&self.settings, &command);
        let epoch = self.epoch;
        self.pass(gate);
        let begun = begin_at(post, number, epoch, command);
        self.take(begun)
    }
}

impl Worker {
    /// Makes the next store of the command under way.
    fn store<P: Post>(&mut self, post: &P, reply: Reply, room: Room) -> Turn
        requires may { MayTakeRow self.old (Hand.Commands reply room) (P.view post.now) (P.told post.now) }
        requires left { 0 < left_in room }
        ensures worker { IsWorker self.new (P.view post.now) }
        ensures turn { DoesAlone (Hand.Commands reply (stored room)) self.old (P.view post.now) (P.told post.now) (Ok result) self.new (P.view post.now) (P.told post.now) }
    {
        let mut room = room;
        make_store(&mut room);
        self.did(Hand::Commands(reply, room))
    }

    /// Draws the entry of the command under way, all of whose stores are made, and notes it in the room.
    fn draw<P: Post>(&mut self, post: &mut P, reply: Reply, room: Room) -> Turn
        requires may { MayTakeRow self.old (Hand.Commands reply room) (P.view post.old) (P.told post.old) }
        requires none_left { left_in room ≡ 0 }
        ensures told { IsTold (P.told post.new) (P.view post.new) }
        ensures marks { MarksFollow (P.own_marks post.old) (P.own_marks post.new) self.old.marks self.new.marks }
        ensures worker { IsWorker self.new (P.view post.new) }
        ensures turn { Draws reply room self.old (P.view post.old) (P.told post.old) (Ok result) self.new (P.view post.new) (P.told post.new) }
    {
        let entry = Entry {
            thread: self.thread,
            index: self.position,
            command: self.commands[self.position as usize],
            reply,
        };
        let ticket = post.draw(entry);
        let mut room = room;
        note_entry(&mut room, ticket, entry);
        self.did(Hand::Drawn(room))
    }

    /// Passes the gate with the next command, where that was not done before.
    fn pass<G: Gate>(&mut self, gate: &G)
        ensures { self.new ≡ at_gate self.old }
    {
        if !self.passed {
            gate.pass(self.thread, self.position);
            self.passed = true;
        }
    }

    /// Takes in hand what came of the begin of a command.
    fn take(&mut self, begun: Begun) -> Result<Turn, AllocError>
        requires free { self.old.hand ≡ Hand.Empty }
        requires few { self.old.done ≤ 10000016 }
        ensures { Takes begun self.old result self.new }
    {
        match begun {
            Begun::Goes(Some(reply), room) => Ok(self.did(Hand::Commands(reply, room))),
            Begun::Goes(None, room) => Ok(self.did(Hand::NoItem(room))),
            Begun::Waits(held) => Ok(Turn::Waited(held)),
            Begun::Starves(room, error) => {
                self.put(Hand::Refused(room));
                Err(error)
            }
        }
    }
}

/// Locks the room of this number, and begins a command of it.
fn begin_at<P: Post>(post: &mut P, number: u32, epoch: u32, command: Command) -> Begun
    requires may { MayBeginAt number epoch command (P.view post.old) }
    ensures told { IsTold (P.told post.new) (P.view post.new) }
    ensures marks { P.own_marks post.new ≡ P.own_marks post.old }
    ensures begun { BeginsAt result number epoch command (P.view post.old) (P.told post.old) (P.view post.new) (P.told post.new) }
{
    match post.lock(number) {
        Ok(room) => {
            of_its_type(&room);
            begin_in(post, room, epoch, command)
        }
        Err(held) => Begun::Waits(held),
    }
}

/// Begins a command in its room, which is in hand. Where there is no memory for it the power is turned off.
fn begin_in<P: Post>(post: &mut P, room: Room, epoch: u32, command: Command) -> Begun
    requires may { MayBeginIn epoch command room }
    requires told { IsTold (P.told post.old) (P.view post.old) }
    ensures told { IsTold (P.told post.new) (P.view post.new) }
    ensures marks { P.own_marks post.new ≡ P.own_marks post.old }
    ensures begun { BeginsIn result epoch command room (P.view post.old) (P.told post.old) (P.view post.new) (P.told post.new) }
{
    let mut room = room;
    match begin_command(&mut room, epoch, command) {
        Ok(reply) => Begun::Goes(reply, room),
        Err(error) => {
            post.off();
            Begun::Starves(room, error)
        }
    }
}
