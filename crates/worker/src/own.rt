//! The rows of a thread that writes its restart point: its own room is locked, the stores are made, and the room goes home.

ghost use Rattle.std.specs.Prelude.{◌≡◌, ◌<◌, nat_lt, false, Ok};
ghost use Rattle.room_in_hand.specs.Working.{stores_left as left_in, stored};
ghost use Rattle.room_yard.specs.Told.{IsTold};
ghost use Rattle.worker_model.specs.Workers.{IsWorker, MarksFollow};
ghost use Rattle.worker_model.specs.Turns.{DoesAlone, GoesOnOwn, LocksOwn, Unlocks, end_at, may_command, with_own_written};
ghost use Rattle.worker.specs.Rows.{MayTakeRow};
ghost use Rattle.worker.specs.OwnRooms.{MayWriteOwn, own_begun};

use crate::worker::Worker;
use restart_point::ThreadEnd;
use room_in_hand::{begin_point, make_store, of_its_type, stores_left};
use room_yard::Post;
use rooms::Room;
use worker_model::{Hand, Turn};
use yard_model::Phase;

impl Worker {
    /// Locks the thread's own room, enters the epoch, and begins the write of its position, with the end that belongs to it.
    pub(crate) fn lock_own<P: Post>(&mut self, post: &mut P) -> Turn
        requires may { MayTakeRow self.old Hand.Empty (P.view post.old) (P.told post.old) }
        requires phase { (P.view post.old).phase ≡ Phase.Running }
        requires none { may_command self.old ≡ false }
        requires unwritten { self.old.wrote ≡ false }
        ensures told { IsTold (P.told post.new) (P.view post.new) }
        ensures marks { MarksFollow (P.own_marks post.old) (P.own_marks post.new) self.old.marks self.new.marks }
        ensures worker { IsWorker self.new (P.view post.new) }
        ensures turn { LocksOwn self.old (P.view post.old) (P.told post.old) (Ok result) self.new (P.view post.new) (P.told post.new) }
    {
        let number = self.settings.sizes().thread_room(self.thread);
        match post.lock(number) {
            Ok(room) => {
                of_its_type(&room);
                self.begin_own(post, room)
            }
            Err(held) => Turn::Waited(held),
        }
    }

    /// Makes the next store of the position; where none is left, unlocks the room.
    pub(crate) fn go_on_own<P: Post>(&mut self, post: &mut P, room: Room) -> Turn
        requires may { MayTakeRow self.old (Hand.Own room) (P.view post.old) (P.told post.old) }
        ensures told { IsTold (P.told post.new) (P.view post.new) }
        ensures marks { MarksFollow (P.own_marks post.old) (P.own_marks post.new) self.old.marks self.new.marks }
        ensures worker { IsWorker self.new (P.view post.new) }
        ensures turn { GoesOnOwn (nat_lt 0 (left_in room)) room self.old (P.view post.old) (P.told post.old) (Ok result) self.new (P.view post.new) (P.told post.new) }
    {
        if stores_left(&room) > 0 {
            self.store_own(post, room)
        } else {
            self.end_own(post, room)
        }
    }
}

impl Worker {
    /// Begins the write of the position in the thread's own room, which is in hand.
    fn begin_own<P: Post>(&mut self, post: &P, room: Room) -> Turn
        requires may { MayWriteOwn self.old room (P.view post.now) }
        ensures worker { IsWorker self.new (P.view post.now) }
        ensures begun { self.new ≡ own_begun self.old room }
        ensures did { result ≡ Turn.Did }
    {
        let end = self.end_here();
        let mut room = room;
        begin_point(&mut room, self.epoch, u64::from(self.position), end);
        self.end = end;
        self.did(Hand::Own(room))
    }

    /// The end that belongs to the place: the script is used, a take found the queue empty, or there is more to do.
    fn end_here(&self) -> ThreadEnd
        ensures { result ≡ end_at self.now }
    {
        if self.commands.len() <= self.position as usize {
            ThreadEnd::Ended
        } else if self.found_empty {
            ThreadEnd::Waits
        } else {
            ThreadEnd::Ready
        }
    }

    /// Makes the next store of the position.
    fn store_own<P: Post>(&mut self, post: &P, room: Room) -> Turn
        requires may { MayTakeRow self.old (Hand.Own room) (P.view post.now) (P.told post.now) }
        requires left { 0 < left_in room }
        ensures marks { self.new.marks ≡ self.old.marks }
        ensures worker { IsWorker self.new (P.view post.now) }
        ensures turn { DoesAlone (Hand.Own (stored room)) self.old (P.view post.now) (P.told post.now) (Ok result) self.new (P.view post.now) (P.told post.now) }
    {
        let mut room = room;
        make_store(&mut room);
        self.did(Hand::Own(room))
    }

    /// Unlocks the thread's own room, whose position is written.
    fn end_own<P: Post>(&mut self, post: &mut P, room: Room) -> Turn
        requires may { MayTakeRow self.old (Hand.Own room) (P.view post.old) (P.told post.old) }
        requires written { left_in room ≡ 0 }
        ensures told { IsTold (P.told post.new) (P.view post.new) }
        ensures marks { MarksFollow (P.own_marks post.old) (P.own_marks post.new) self.old.marks self.new.marks }
        ensures worker { IsWorker self.new (P.view post.new) }
        ensures turn { Unlocks room (with_own_written self.old) (P.view post.old) (P.told post.old) (Ok result) self.new (P.view post.new) (P.told post.new) }
    {
        let number = self.settings.sizes().thread_room(self.thread);
        post.unlock(number, room);
        self.wrote = true;
        self.done += 1;
        Turn::Did
    }
}
