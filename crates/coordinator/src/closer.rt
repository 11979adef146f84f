//! The thread that closes an epoch.

ghost use Rattle.std.specs.Prelude.{◌≡◌, ◌+◌, ◌≤◌};
ghost use Rattle.yard_model.specs.declared.view.View.{View as TheView};
ghost use Rattle.room_yard.specs.Told.{IsTold, with_own};
ghost use Rattle.room_yard.specs.Calls.{MayEndEpoch};
ghost use Rattle.room_yard.specs.Answers.{EndedEpoch};
ghost use Rattle.coordinator.specs.Learnts.{ends_life};
ghost use Rattle.coordinator.specs.Closers.{new_closer, with_hand, HandIs, IsCloser, MayGiveBack, BeginsToClose, least_events, most_events};
ghost use Rattle.coordinator.specs.Steps.{DoesNext, Releases, StepIs, IfDid, IfReleased, own_behind, GivesBack};
ghost use Rattle.coordinator.specs.Events.{MayTakeNext, HasTaken, HasEvent, MayGiveHand, are_all_done};

use crate::events::{ask, bring_in, fence, store, take, write_back};
use crate::hand::{Hand, end_hand, put_in};
use crate::learnt::Learnt;
use block_allow::Verdict;
use epoch_word::{EpochStage, SuperRoom};
use life_model::Mark;
use room_in_hand::of_its_type;
use room_yard::Post;
use rooms::Room;
use seq_object::Settings;
use std::marker::Model;
use std::mem;

/// What a step of a closer did.
#[derive(Clone, Copy, Debug, PartialEq, Eq)]
pub enum CloseStep {
    /// One event.
    Did,
    /// The release of the epoch, with the checkpoint that it acknowledged and what the ends of all threads say of the life.
    Released(Mark, Verdict),
}

/// Closes an epoch: room by room in the order of their numbers, one event at each step.
#[derive(Drop)]
pub struct Closer {
    settings: Settings,
    learnt: Learnt,
    hand: Hand,
}

impl Model for Closer {
    ghost use Rattle.coordinator.specs.Closers.{CloserState};

    ghost Value = { CloserState };

    ghost view = { λ a. record { settings = a.settings; learnt = a.learnt; hand = a.hand } };
}

impl Closer {
    /// A closing of which nothing is done, in a memory of these settings. A thread that claimed the epoch of such a memory, in
    /// which its own restart point was written, may begin with it.
    pub fn new(settings: Settings) -> Closer
        ensures is { result ≡ new_closer settings }
        ensures begins { (v : TheView) → BeginsToClose settings v → IsCloser result v }
    {
        Closer {
            settings,
            learnt: Learnt {
                rooms: 0,
                fed: false,
                verdict: Verdict::Finished,
            },
            hand: Hand::Empty,
        }
    }

    /// Does the next event. Of a room of cells: its lock, with which the closing of its cells begins; the write-back of each line
    /// that was stored to; where there was one, a fence; its unlock. Of the super room: its lock; the store of the next epoch; its
    /// write-back; a fence; its unlock. Behind that the epoch is released, and the closer is not used again.
    pub fn step<P: Post>(&mut self, post: &mut P) -> CloseStep
        requires closer { IsCloser self.old (P.view post.old) }
        ensures told { IsTold (P.told post.new) (P.view post.new) }
        ensures marks { P.own_marks post.new ≡ own_behind result (P.own_marks post.old) }
        ensures did { IfDid result (DoesNext self.old (P.view post.old) (P.told post.old) self.new (P.view post.new) (P.told post.new)) }
        ensures released { IfReleased result (λ mark verdict. Releases self.old (P.view post.old) (P.told post.old) mark verdict self.new (P.view post.new) (P.told post.new)) }
        ensures least { least_events (P.view post.old).thread self.new ≤ least_events (P.view post.old).thread self.old + 1 }
        ensures most { most_events self.old + 1 ≤ most_events self.new }
    {
        if is_all_done(&self.hand) {
            self.release_epoch(post)
        } else {
            self.go_on(post)
        }
    }

    /// Gives a room in hand up as it is, when the thread saw the power off. The closer is not used again.
    pub fn give_back<P: Post>(&mut self, post: &mut P)
        requires closer { MayGiveBack self.old (P.view post.old) }
        ensures told { IsTold (P.told post.new) (P.view post.new) }
        ensures marks { P.own_marks post.new ≡ P.own_marks post.old }
        ensures done { GivesBack self.old.hand self.old.learnt.rooms (P.view post.old) (P.told post.old) (P.view post.new) (P.told post.new) }
        ensures over { self.new ≡ with_hand self.old Hand.Over }
    {
        let rooms = self.learnt.rooms;
        let hand = mem::replace(&mut self.hand, Hand::Over);
        give_up(post, rooms, hand);
    }

    /// Lets the closer go, where the epoch was released or its room was given back.
    pub fn end(self)
        requires over { self.hand ≡ Hand.Over }
    {
        let Closer { hand, .. } = self;
        match hand {
            Hand::Over => {}
            Hand::Empty | Hand::AllDone => unreachable!(),
            Hand::Flushing(_) | Hand::Flushed(_) => unreachable!(),
            Hand::Shut(_) | Hand::Epoch(_, _) => unreachable!(),
        }
    }

    /// Releases the epoch, all of whose rooms are done.
    fn release_epoch<P: Post>(&mut self, post: &mut P) -> CloseStep
        requires closer { IsCloser self.old (P.view post.old) }
        requires all_done { self.old.hand ≡ Hand.AllDone }
        ensures told { IsTold (P.told post.new) (P.view post.new) }
        ensures marks { P.own_marks post.new ≡ own_behind result (P.own_marks post.old) }
        ensures step { StepIs result self.old (P.view post.old) (P.told post.old) self.new (P.view post.new) (P.told post.new) }
    {
        let learnt = self.learnt;
        let mark = release(post, learnt);
        end_hand(&mut self.hand);
        CloseStep::Released(mark, learnt.verdict)
    }

    /// Does the next event, while not all rooms are done.
    fn go_on<P: Post>(&mut self, post: &mut P) -> CloseStep
        requires closer { IsCloser self.old (P.view post.old) }
        requires event { HasEvent self.old.hand }
        ensures told { IsTold (P.told post.new) (P.view post.new) }
        ensures marks { P.own_marks post.new ≡ own_behind result (P.own_marks post.old) }
        ensures step { StepIs result self.old (P.view post.old) (P.told post.old) self.new (P.view post.new) (P.told post.new) }
    {
        let hand = mem::replace(&mut self.hand, Hand::Over);
        let Closer {
            settings,
            learnt,
            hand,
        } = next(post, self.settings, self.learnt, hand);
        self.settings = settings;
        self.learnt = learnt;
        put_in(&mut self.hand, hand);
        CloseStep::Did
    }
}

/// Whether all rooms are done.
fn is_all_done(hand: &Hand) -> bool
    ensures { result ≡ are_all_done hand.now }
{
    matches!(hand, Hand::AllDone)
}

/// Does the next event of a closing in which not all rooms are done.
fn next<P: Post>(post: &mut P, settings: Settings, learnt: Learnt, hand: Hand) -> Closer
    requires closer { IsCloser (record { settings = settings; learnt = learnt; hand = hand }) (P.view post.old) }
    requires event { HasEvent hand }
    ensures told { IsTold (P.told post.new) (P.view post.new) }
    ensures marks { P.own_marks post.new ≡ P.own_marks post.old }
    ensures did { DoesNext (record { settings = settings; learnt = learnt; hand = hand }) (P.view post.old) (P.told post.old) result (P.view post.new) (P.told post.new) }
{
    let _off = post.is_off();
    match hand {
        Hand::Empty => Closer {
            settings,
            learnt,
            hand: lock_next(post, learnt.rooms),
        },
        Hand::Flushing(room) => Closer {
            settings,
            learnt,
            hand: write_back(room),
        },
        Hand::Flushed(room) => Closer {
            settings,
            learnt,
            hand: bring_in(room),
        },
        Hand::Shut(room) => end_room(post, settings, learnt, room),
        Hand::Epoch(stage, room) => next_of_epoch(post, settings, learnt, stage, room),
        Hand::AllDone | Hand::Over => unreachable!(),
    }
}

/// Takes the next room.
fn lock_next<P: Post>(post: &mut P, rooms: u32) -> Hand
    requires may { MayTakeNext (P.view post.old) rooms }
    ensures told { IsTold (P.told post.new) (P.view post.new) }
    ensures marks { P.own_marks post.new ≡ P.own_marks post.old }
    ensures taken { HasTaken (P.view post.old) (P.told post.old) rooms result (P.view post.new) (P.told post.new) }
{
    let Ok(room) = post.lock(rooms) else {
        unreachable!()
    };
    of_its_type(&room);
    take(room)
}

/// Gives a room of cells back that is in memory, and learns what it tells.
fn end_room<P: Post>(post: &mut P, settings: Settings, learnt: Learnt, room: Room) -> Closer
    requires closer { IsCloser (record { settings = settings; learnt = learnt; hand = Hand.Shut room }) (P.view post.old) }
    ensures told { IsTold (P.told post.new) (P.view post.new) }
    ensures marks { P.own_marks post.new ≡ P.own_marks post.old }
    ensures did { DoesNext (record { settings = settings; learnt = learnt; hand = Hand.Shut room }) (P.view post.old) (P.told post.old) result (P.view post.new) (P.told post.new) }
{
    let rooms = learnt.rooms;
    let learnt = learnt.with(&room);
    post.unlock(rooms, room);
    Closer {
        settings,
        learnt,
        hand: Hand::Empty,
    }
}

/// Does the next event on the super room.
fn next_of_epoch<P: Post>(
    post: &mut P,
    settings: Settings,
    learnt: Learnt,
    stage: EpochStage,
    room: SuperRoom,
) -> Closer
    requires closer { IsCloser (record { settings = settings; learnt = learnt; hand = Hand.Epoch stage room }) (P.view post.old) }
    requires told { IsTold (P.told post.old) (P.view post.old) }
    ensures told { IsTold (P.told post.new) (P.view post.new) }
    ensures marks { P.own_marks post.new ≡ P.own_marks post.old }
    ensures did { DoesNext (record { settings = settings; learnt = learnt; hand = Hand.Epoch stage room }) (P.view post.old) (P.told post.old) result (P.view post.new) (P.told post.new) }
{
    match stage {
        EpochStage::Before => Closer {
            settings,
            learnt,
            hand: store(room),
        },
        EpochStage::Stored => Closer {
            settings,
            learnt,
            hand: ask(room),
        },
        EpochStage::AskedFor => Closer {
            settings,
            learnt,
            hand: fence(room),
        },
        EpochStage::InMemory => end_epoch(post, settings, learnt, room),
    }
}

/// Gives the super room back, with the next epoch in memory.
fn end_epoch<P: Post>(post: &mut P, settings: Settings, learnt: Learnt, room: SuperRoom) -> Closer
    requires closer { IsCloser (record { settings = settings; learnt = learnt; hand = Hand.Epoch EpochStage.InMemory room }) (P.view post.old) }
    ensures told { IsTold (P.told post.new) (P.view post.new) }
    ensures marks { P.own_marks post.new ≡ P.own_marks post.old }
    ensures did { DoesNext (record { settings = settings; learnt = learnt; hand = Hand.Epoch EpochStage.InMemory room }) (P.view post.old) (P.told post.old) result (P.view post.new) (P.told post.new) }
{
    let rooms = learnt.rooms;
    let room = Room::Super(room);
    let learnt = learnt.with(&room);
    post.unlock(rooms, room);
    Closer {
        settings,
        learnt,
        hand: Hand::AllDone,
    }
}

/// Ends the epoch, all of whose rooms are done.
fn release<P: Post>(post: &mut P, learnt: Learnt) -> Mark
    requires may { MayEndEpoch (P.view post.old) (ends_life learnt.verdict) learnt.fed }
    ensures told { IsTold (P.told post.new) (P.view post.new) }
    ensures marks { P.own_marks post.new ≡ with_own (P.own_marks post.old) (record { mark = result; over = ends_life learnt.verdict }) }
    ensures ended { EndedEpoch (P.view post.old) (P.told post.old) (ends_life learnt.verdict) learnt.fed result (P.view post.new) (P.told post.new) }
{
    post.release(is_end(learnt.verdict), learnt.fed)
}

/// Whether the life ends with such a verdict: no thread may leave.
fn is_end(verdict: Verdict) -> bool
    ensures { result ≡ ends_life verdict }
{
    match verdict {
        Verdict::Goes => false,
        Verdict::Finished | Verdict::Stalled => true,
    }
}

/// Gives up what is in hand.
fn give_up<P: Post>(post: &mut P, rooms: u32, hand: Hand)
    requires may { MayGiveHand hand (P.view post.old) rooms }
    ensures told { IsTold (P.told post.new) (P.view post.new) }
    ensures marks { P.own_marks post.new ≡ P.own_marks post.old }
    ensures done { GivesBack hand rooms (P.view post.old) (P.told post.old) (P.view post.new) (P.told post.new) }
{
    let _off = post.is_off();
    match hand {
        Hand::Flushing(room) => post.retreat(rooms, room),
        Hand::Flushed(room) => post.retreat(rooms, room),
        Hand::Shut(room) => post.retreat(rooms, room),
        Hand::Epoch(_, room) => post.retreat(rooms, Room::Super(room)),
        Hand::Empty | Hand::AllDone | Hand::Over => {}
    }
}
