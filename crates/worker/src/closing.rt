//! The row of a thread that closes the epoch.

ghost use Rattle.std.specs.Prelude.{◌≡◌, ◌<◌, ◌≤◌, ◌+◌, ◌-◌, ◌++◌, ◌∷◌, [], Ok};
ghost use Rattle.room_yard.specs.Told.{IsTold};
ghost use Rattle.worker_model.specs.Workers.{IsWorker, MarksFollow};
ghost use Rattle.worker_model.specs.Turns.{ClosesOn};
ghost use Rattle.worker.specs.Rows.{MayTakeRow};

use crate::worker::Worker;
use coordinator::{CloseStep, Closer};
use life_model::Mark;
use room_yard::Post;
use worker_model::{Hand, Turn};

impl Worker {
    /// Does the closer's next event. With the release the mark is kept, in the room that was made for it, and the thread stands.
    pub(crate) fn go_on_closing<P: Post>(&mut self, post: &mut P, closer: Closer) -> Turn
        requires may { MayTakeRow self.old (Hand.Closes closer) (P.view post.old) (P.told post.old) }
        ensures told { IsTold (P.told post.new) (P.view post.new) }
        ensures marks { MarksFollow (P.own_marks post.old) (P.own_marks post.new) self.old.marks self.new.marks }
        ensures worker { IsWorker self.new (P.view post.new) }
        ensures turn { ClosesOn closer self.old (P.view post.old) (P.told post.old) (Ok result) self.new (P.view post.new) (P.told post.new) }
    {
        let mut closer = closer;
        match closer.step(post) {
            CloseStep::Did => self.did(Hand::Closes(closer)),
            CloseStep::Released(mark, _) => {
                closer.end();
                self.keep(mark)
            }
        }
    }

    /// Keeps the mark of a closing that ended, in the room that was made for it.
    fn keep(&mut self, mark: Mark) -> Turn
        requires free { self.old.hand ≡ Hand.Empty }
        requires spare { 0 < self.old.spare }
        requires few { self.old.done ≤ 10000016 }
        ensures is { self.new ≡ record self.old { hand = Hand.Empty; marks = self.old.marks ++ mark ∷ []; spare = self.old.spare - 1; done = self.old.done + 1 } }
        ensures did { result ≡ Turn.Did }
    {
        self.marks.push_reserved(mark);
        self.did(Hand::Empty)
    }
}
