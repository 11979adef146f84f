//! The rows of a thread at its restart point: it stands, leaves, and claims the closing.

ghost use Rattle.std.specs.Prelude.{◌≡◌, ◌<◌, ◌≤◌, true, false, Ok, IfOk};
ghost use Rattle.room_yard.specs.Told.{IsTold};
ghost use Rattle.worker_model.specs.Workers.{IsWorker, MarksFollow};
ghost use Rattle.worker_model.specs.Turns.{Stands, GoesOnStanding, ClaimsBy, left_behind, may_command, shows_over as shown_over};
ghost use Rattle.worker.specs.Rows.{MayTakeRow};

use crate::worker::Worker;
use coordinator::Closer;
use restart_point::{Arrival, ThreadEnd};
use room_yard::{Post, Rest};
use std::alloc::AllocError;
use worker_model::{Hand, Turn};
use yard_model::Phase;

impl Worker {
    /// Stands at the restart point, which is written.
    pub(crate) fn stand<P: Post>(&mut self, post: &mut P) -> Turn
        requires may { MayTakeRow self.old Hand.Empty (P.view post.old) (P.told post.old) }
        requires phase { (P.view post.old).phase ≡ Phase.Running }
        requires none { may_command self.old ≡ false }
        requires written { self.old.wrote ≡ true }
        ensures told { IsTold (P.told post.new) (P.view post.new) }
        ensures marks { MarksFollow (P.own_marks post.old) (P.own_marks post.new) self.old.marks self.new.marks }
        ensures worker { IsWorker self.new (P.view post.new) }
        ensures turn { Stands self.old (P.view post.old) (P.told post.old) (Ok result) self.new (P.view post.new) (P.told post.new) }
    {
        let Ok(()) = post.stand() else { unreachable!() };
        self.did(Hand::Empty)
    }

    /// Leaves the restart point, where the end allows it, and else claims the closing. Before the claim it takes the memory for one mark; where
    /// there is none the power is turned off.
    pub(crate) fn go_on_standing<P: Post>(&mut self, post: &mut P) -> Result<Turn, AllocError>
        requires may { MayTakeRow self.old Hand.Empty (P.view post.old) (P.told post.old) }
        requires phase { (P.view post.old).phase ≡ Phase.Standing }
        ensures told { IsTold (P.told post.new) (P.view post.new) }
        ensures marks { MarksFollow (P.own_marks post.old) (P.own_marks post.new) self.old.marks self.new.marks }
        ensures worker { IsWorker self.new (P.view post.new) }
        ensures turn { GoesOnStanding self.old.end self.old (P.view post.old) (P.told post.old) result self.new (P.view post.new) (P.told post.new) }
    {
        if self.end == ThreadEnd::Ended {
            return self.claim(post);
        }
        match post.leave(self.end) {
            Ok(epoch) => Ok(self.left(epoch)),
            Err(rest) if shows_over(rest.met) => Ok(Turn::Over),
            Err(_) => self.claim(post),
        }
    }
}

impl Worker {
    /// Begins to run in this epoch, which was left to.
    fn left(&mut self, epoch: u32) -> Turn
        requires free { self.old.hand ≡ Hand.Empty }
        requires few { self.old.done ≤ 10000016 }
        ensures is { self.new ≡ left_behind self.old epoch }
        ensures did { result ≡ Turn.Did }
    {
        self.epoch = epoch;
        self.quota = self.settings.every;
        self.wrote = false;
        self.found_empty = false;
        self.did(Hand::Empty)
    }

    /// Claims the closing, with memory for its mark taken before.
    fn claim<P: Post>(&mut self, post: &mut P) -> Result<Turn, AllocError>
        requires may { MayTakeRow self.old Hand.Empty (P.view post.old) (P.told post.old) }
        requires phase { (P.view post.old).phase ≡ Phase.Standing }
        ensures told { IsTold (P.told post.new) (P.view post.new) }
        ensures marks { MarksFollow (P.own_marks post.old) (P.own_marks post.new) self.old.marks self.new.marks }
        ensures worker { IsWorker self.new (P.view post.new) }
        ensures turn { ClaimsBy result self.old (P.view post.old) (P.told post.old) self.new (P.view post.new) (P.told post.new) }
    {
        match self.make_room() {
            Ok(()) => Ok(self.claim_with_room(post)),
            Err(error) => {
                post.off();
                Err(error)
            }
        }
    }

    /// Makes room for one more mark.
    fn make_room(&mut self) -> Result<(), AllocError>
        ensures is { self.new ≡ record self.old { spare = self.new.spare } }
        ensures some { IfOk result (λ _. 0 < self.new.spare) }
    {
        self.marks.reserve(1)
    }

    /// Claims the closing, with room for its mark.
    fn claim_with_room<P: Post>(&mut self, post: &mut P) -> Turn
        requires may { MayTakeRow self.old Hand.Empty (P.view post.old) (P.told post.old) }
        requires phase { (P.view post.old).phase ≡ Phase.Standing }
        requires some { 0 < self.old.spare }
        ensures told { IsTold (P.told post.new) (P.view post.new) }
        ensures marks { MarksFollow (P.own_marks post.old) (P.own_marks post.new) self.old.marks self.new.marks }
        ensures worker { IsWorker self.new (P.view post.new) }
        ensures turn { ClaimsBy (Ok result) self.old (P.view post.old) (P.told post.old) self.new (P.view post.new) (P.told post.new) }
    {
        match post.claim() {
            Ok(()) => self.did(Hand::Closes(Closer::new(self.settings))),
            Err(rest) if shows_over(rest.met) => Turn::Over,
            Err(rest) => Turn::Rested(rest),
        }
    }
}

/// Whether an arrival word shows that the life is over.
fn shows_over(word: u64) -> bool
    ensures { result ≡ shown_over word }
{
    Arrival::of(word).over
}
