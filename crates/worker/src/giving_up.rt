//! The row of a thread that saw the power off.

ghost use Rattle.std.specs.Prelude.{◌≡◌, true, Ok};
ghost use Rattle.room_yard.specs.Told.{IsTold};
ghost use Rattle.worker_model.specs.Workers.{IsWorker, MarksFollow, ahead as ahead_of};
ghost use Rattle.worker_model.specs.Turns.{GivesUp, GivesRoomUp, GivesHandUp};
ghost use Rattle.worker.specs.GivingUp.{MayGiveRoom, MayGiveHand};

use crate::worker::Worker;
use coordinator::Closer;
use room_yard::Post;
use rooms::Room;
use std::mem;
use worker_model::{Hand, Turn};

impl Worker {
    /// Gives up what is in hand. An entry that is drawn counts as carried out. No event is done.
    pub(crate) fn give_up<P: Post>(&mut self, post: &mut P) -> Turn
        requires worker { IsWorker self.old (P.view post.old) }
        requires off { (P.view post.old).saw_off ≡ true }
        ensures told { IsTold (P.told post.new) (P.view post.new) }
        ensures marks { MarksFollow (P.own_marks post.old) (P.own_marks post.new) self.old.marks self.new.marks }
        ensures worker { IsWorker self.new (P.view post.new) }
        ensures turn { GivesUp self.old (P.view post.old) (P.told post.old) (Ok result) self.new (P.view post.new) (P.told post.new) }
    {
        let hand = mem::replace(&mut self.hand, Hand::Empty);
        let drawn = drawn_in(&hand);
        self.position += drawn;
        self.quota -= drawn;
        give_hand_up(post, hand);
        Turn::Over
    }
}

/// How many entries are drawn whose room is in hand.
fn drawn_in(hand: &Hand) -> u32
    ensures { result ≡ ahead_of hand.now }
{
    match hand {
        Hand::Drawn(_) => 1,
        Hand::Empty | Hand::Commands(_, _) | Hand::NoItem(_) => 0,
        Hand::Own(_) | Hand::Closes(_) | Hand::Refused(_) => 0,
    }
}

/// Gives up what is in hand, where anything is.
fn give_hand_up<P: Post>(post: &mut P, hand: Hand)
    requires may { MayGiveHand hand (P.view post.old) }
    ensures told { IsTold (P.told post.new) (P.view post.new) }
    ensures marks { P.own_marks post.new ≡ P.own_marks post.old }
    ensures done { GivesHandUp hand (P.view post.old) (P.told post.old) (P.view post.new) (P.told post.new) }
{
    let _off = post.is_off();
    match hand {
        Hand::Empty => {}
        Hand::Commands(_, room) => give_room_up(post, room),
        Hand::Drawn(room) => give_room_up(post, room),
        Hand::NoItem(room) => give_room_up(post, room),
        Hand::Own(room) => give_room_up(post, room),
        Hand::Closes(closer) => give_closing_up(post, closer),
        Hand::Refused(room) => give_room_up(post, room),
    }
}

/// Gives the room up that the thread holds.
fn give_room_up<P: Post>(post: &mut P, room: Room)
    requires may { MayGiveRoom room (P.view post.old) }
    ensures told { IsTold (P.told post.new) (P.view post.new) }
    ensures marks { P.own_marks post.new ≡ P.own_marks post.old }
    ensures done { GivesRoomUp room (P.view post.old) (P.told post.old) (P.view post.new) (P.told post.new) }
{
    let Some(number) = post.holds() else {
        unreachable!()
    };
    post.retreat(number, room);
}

/// Gives up what a thread that closes has in hand.
fn give_closing_up<P: Post>(post: &mut P, closer: Closer)
    requires may { MayGiveHand (Hand.Closes closer) (P.view post.old) }
    ensures told { IsTold (P.told post.new) (P.view post.new) }
    ensures marks { P.own_marks post.new ≡ P.own_marks post.old }
    ensures done { GivesHandUp (Hand.Closes closer) (P.view post.old) (P.told post.old) (P.view post.new) (P.told post.new) }
{
    let mut closer = closer;
    closer.give_back(post);
    closer.end();
}
