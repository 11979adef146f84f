//! The run of a replay under a schedule.

ghost use Rattle.std.specs.Prelude.{◌≡◌, ◌<◌, ◌++◌, drop, length, option_to_list, slice_get, vec_capacity};
ghost use Rattle.script_text.specs.Program.{turns_of};
ghost use Rattle.script_text.specs.Text.{AreTurns};
ghost use Rattle.script_text.specs.Schedules.{schedule_of};
ghost use Rattle.replay_model.specs.Kept.{IsReplay};
ghost use Rattle.script_run.specs.Runs.{HaveDone, RunsOrDries};
ghost use Rattle.script_run.specs.Steps.{marks_by, AreMarksOf, IsOrderIn, HasTurnOrDries, StaysReplay};

use crate::replay::{Replay, Turned};
use life_model::Mark;
use script_text::Mode;
use turn_order::TurnOrder;

/// Where a run ended.
#[derive(Drop)]
pub(crate) struct Run {
    pub(crate) replay: Replay,
    /// The checkpoints that were acknowledged, in order.
    pub(crate) marks: Vec<Mark>,
    /// Whether memory ran out.
    pub(crate) dry: bool,
}

impl Replay {
    /// Makes the turns of a mode that this order has left, each of the thread that it names, until the life is over, the turns are spent, or
    /// memory runs out. `marks` are those before the first of them. More are kept as they are acknowledged; room for one is made before each
    /// turn.
    pub(crate) fn run(self, threads: u32, mode: &Mode, order: TurnOrder, marks: Vec<Mark>) -> Run
        requires replay { IsReplay self }
        requires none_done { HaveDone 0 self }
        requires threads { length self.workers ≡ threads }
        requires turns { AreTurns threads (turns_of mode.now) }
        requires order { IsOrderIn threads (turns_of mode.now) order }
        requires marks { AreMarksOf marks.items self }
        ensures runs { RunsOrDries result.dry (drop order.given (schedule_of threads (turns_of mode.now))) self result.replay }
        ensures replay { IsReplay result.replay }
        ensures few { HaveDone 10000016 result.replay }
        ensures beginning { result.replay.yard.beginning ≡ self.yard.beginning }
        ensures number { length result.replay.workers ≡ threads }
        ensures marks { AreMarksOf result.marks.items result.replay }
    {
        let mut order = order;
        let mut run = Run {
            replay: self,
            marks,
            dry: false,
        };
        while !run.dry && !run.replay.is_over() {
            let Some(thread) = order.next(mode) else {
                break;
            };
            run = run.with_turn(thread);
        }
        run
    }

    /// How many checkpoints the worker of a thread released.
    fn released(&self, thread: u32) -> usize
        requires thread { thread < length self.now.workers }
        ensures { result ≡ length (marks_by self.now thread) }
    {
        self.workers[thread as usize].marks().len()
    }

    /// The checkpoint of this number that the worker of a thread released, if there is one.
    fn mark(&self, thread: u32, number: usize) -> Option<Mark>
        requires thread { thread < length self.now.workers }
        ensures { result ≡ slice_get (marks_by self.now thread) number }
    {
        self.workers[thread as usize].marks().get(number).copied()
    }
}

impl Run {
    /// A turn of a thread, with its mark kept. Where there is no room for one the turn is not made.
    fn with_turn(self, thread: u32) -> Run
        requires replay { IsReplay self.replay }
        requires thread { thread < length self.replay.workers }
        requires few { HaveDone 10000016 self.replay }
        requires marks { AreMarksOf self.marks.items self.replay }
        ensures turn { HasTurnOrDries result.dry thread self.replay result.replay }
        ensures stays { StaysReplay self.replay result.replay }
        ensures marks { AreMarksOf result.marks.items result.replay }
    {
        let Run {
            replay,
            marks,
            dry: _,
        } = self;
        let mut marks = marks;
        if marks.reserve(1).is_err() {
            return Run {
                replay,
                marks,
                dry: true,
            };
        }
        made_turn(replay, marks, thread)
    }
}

/// A turn of a thread. Its mark is kept in the room that was made for it.
fn made_turn(replay: Replay, marks: Vec<Mark>, thread: u32) -> Run
    requires replay { IsReplay replay }
    requires thread { thread < length replay.workers }
    requires few { HaveDone 10000016 replay }
    requires marks { AreMarksOf marks.items replay }
    requires room { length marks.items < vec_capacity marks }
    ensures turn { HasTurnOrDries result.dry thread replay result.replay }
    ensures stays { StaysReplay replay result.replay }
    ensures marks { AreMarksOf result.marks.items result.replay }
{
    let released = replay.released(thread);
    let Turned { replay, answer } = replay.turn(thread);
    let mark = replay.mark(thread, released);
    Run {
        replay,
        marks: with_mark(marks, mark),
        dry: answer.is_err(),
    }
}

/// The marks with one more, if there is one.
pub(crate) fn with_mark(marks: Vec<Mark>, mark: Option<Mark>) -> Vec<Mark>
    requires room { length marks.items < vec_capacity marks }
    ensures { result.items ≡ marks.items ++ option_to_list mark }
{
    let mut marks = marks;
    if let Some(mark) = mark {
        marks.push_reserved(mark);
    }
    marks
}
