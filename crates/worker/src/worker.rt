//! A worker, and its turn: the first row of the table that applies.

ghost use Rattle.std.specs.Prelude.{◌≡◌, ◌<◌, ◌≤◌, length, false, nat_lt, if◌then◌else◌, IfOk};
ghost use Rattle.seq_object.specs.Sizes.{IsValid};
ghost use Rattle.life_model.specs.Life.{script_of, opening_place};
ghost use Rattle.restart_point.specs.declared.thread_end.ThreadEnd.TheVariants.{Ready, Ended};
ghost use Rattle.yard_model.specs.declared.view.Beginning.{Beginning as TheBeginning};
ghost use Rattle.yard_model.specs.Beginnings.{opening_of};
ghost use Rattle.yard_model.specs.Opens.{opening_view};
ghost use Rattle.room_yard.specs.Told.{IsTold};
ghost use Rattle.worker_model.specs.Workers.{IsWorker, MarksFollow};
ghost use Rattle.worker_model.specs.Turns.{DoesTurn, with_hand, did as one_more, WithNothing, GoesOnEmpty, may_command};
ghost use Rattle.worker.specs.Rows.{MayTakeRow};

use crate::gate::Gate;
use crate::slot::put_in;
use life_model::Mark;
use restart_point::ThreadEnd;
use room_yard::Post;
use seq_object::{Command, Settings};
use std::alloc::{AllocError, Global};
use std::marker::Model;
use std::mem;
use worker_model::{Hand, Turn};
use yard_model::Phase;

/// The most events that a worker may have done before a turn: those of the longest replay, and one for each thread.
pub const MOST_DONE: u64 = 10_000_016;

/// A thread's worker.
#[derive(Drop)]
pub struct Worker {
    pub(crate) thread: u32,
    pub(crate) settings: Settings,
    pub(crate) commands: Vec<Command>,
    pub(crate) position: u32,
    pub(crate) quota: u32,
    pub(crate) epoch: u32,
    pub(crate) end: ThreadEnd,
    pub(crate) wrote: bool,
    pub(crate) found_empty: bool,
    pub(crate) passed: bool,
    pub(crate) hand: Hand,
    pub(crate) marks: Vec<Mark>,
    pub(crate) done: u64,
}

/// A contract sees a worker by its fields, and of its marks how many more there is room for.
impl Model for Worker {
    ghost use Rattle.std.specs.Prelude.{◌-◌, vec_len};
    ghost use Rattle.std.specs.Vec.{vec_capacity};
    ghost use Rattle.worker_model.specs.Workers.{WorkerState};

    ghost Value = { WorkerState };

    ghost view = { λ a. record { thread = a.thread; settings = a.settings; commands = a.commands.items; position = a.position; quota = a.quota; epoch = a.epoch; end = a.end; wrote = a.wrote; found_empty = a.found_empty; passed = a.passed; hand = a.hand; marks = a.marks.items; spare = vec_capacity a.marks - vec_len a.marks; done = a.done } };
}

impl Worker {
    /// The worker of a thread, which stands at this place of its script. `commands` is the whole script, of at most 4,096 commands. It
    /// is ready where a command is left, and at its script's end where none is. Want of memory is the one refusal.
    pub fn new(
        alloc: Global,
        thread: u32,
        commands: &[Command],
        position: u32,
        settings: Settings,
    ) -> Result<Worker, AllocError>
        requires valid { IsValid settings }
        requires thread { thread < settings.threads }
        requires short { length commands.now ≤ 4096 }
        requires place { position ≤ length commands.now }
        ensures begins { IfOk result (λ worker. (b : TheBeginning) → b.settings ≡ settings → script_of b.scripts thread ≡ commands.now → opening_place (opening_of b) thread ≡ position → IsWorker worker (opening_view b thread)) }
        ensures end { IfOk result (λ worker. worker.end ≡ (if nat_lt position (length commands.now) then Ready else Ended)) }
    {
        let end = if (position as usize) < commands.len() {
            ThreadEnd::Ready
        } else {
            ThreadEnd::Ended
        };
        let mut script = Vec::with_capacity(alloc, commands.len())?;
        script.extend_from_slice(commands)?;
        Ok(Worker {
            thread,
            settings,
            commands: script,
            position,
            quota: 0,
            epoch: 0,
            end,
            wrote: false,
            found_empty: false,
            passed: false,
            hand: Hand::Empty,
            marks: Vec::new(alloc),
            done: 0,
        })
    }

    /// The checkpoints that its closings released, in order.
    pub fn marks(&self) -> &[Mark]
        ensures { result.now ≡ self.now.marks }
    {
        self.marks.as_slice()
    }

    /// How many events it has done: the number of its turns that answered `Did`.
    pub fn done(&self) -> u64
        ensures { result ≡ self.now.done }
    {
        self.done
    }

    /// One turn: the event of the first row of the table that applies, or that row's rest. At want of memory, which comes before a command's
    /// first store and before a claim, the turn has turned the power off; what is in hand is given up by the next turn, which answers
    /// `Over`.
    pub fn turn<P: Post, G: Gate>(&mut self, post: &mut P, gate: &G) -> Result<Turn, AllocError>
        requires worker { IsWorker self.old (P.view post.old) }
        requires few { self.old.done ≤ 10000016 }
        ensures told { IsTold (P.told post.new) (P.view post.new) }
        ensures marks { MarksFollow (P.own_marks post.old) (P.own_marks post.new) self.old.marks self.new.marks }
        ensures worker { IsWorker self.new (P.view post.new) }
        ensures turn { DoesTurn self.old (P.view post.old) (P.told post.old) result self.new (P.view post.new) (P.told post.new) }
    {
        if post.is_off() {
            return Ok(self.give_up(post));
        }
        let hand = mem::replace(&mut self.hand, Hand::Empty);
        match hand {
            Hand::Empty => self.with_nothing(post, gate),
            Hand::Commands(reply, room) => Ok(self.go_on_command(post, reply, room)),
            Hand::Drawn(room) => Ok(self.end_command(post, room)),
            Hand::NoItem(room) => Ok(self.end_take(post, room)),
            Hand::Own(room) => Ok(self.go_on_own(post, room)),
            Hand::Closes(closer) => Ok(self.go_on_closing(post, closer)),
            Hand::Refused(_) => unreachable!(),
        }
    }

    /// A turn with nothing in hand.
    fn with_nothing<P: Post, G: Gate>(&mut self, post: &mut P, gate: &G) -> Result<Turn, AllocError>
        requires may { MayTakeRow self.old Hand.Empty (P.view post.old) (P.told post.old) }
        ensures told { IsTold (P.told post.new) (P.view post.new) }
        ensures marks { MarksFollow (P.own_marks post.old) (P.own_marks post.new) self.old.marks self.new.marks }
        ensures worker { IsWorker self.new (P.view post.new) }
        ensures turn { WithNothing (P.view post.old).phase self.old (P.view post.old) (P.told post.old) result self.new (P.view post.new) (P.told post.new) }
    {
        match post.phase() {
            Phase::Standing => self.go_on_standing(post),
            Phase::Running => self.go_on_running(post, gate),
            Phase::Closing => unreachable!(),
        }
    }

    /// A turn of a thread that runs, with nothing in hand: a command where one may begin, else its own room, and where that is written
    /// the restart point.
    fn go_on_running<P: Post, G: Gate>(
        &mut self,
        post: &mut P,
        gate: &G,
    ) -> Result<Turn, AllocError>
        requires may { MayTakeRow self.old Hand.Empty (P.view post.old) (P.told post.old) }
        requires phase { (P.view post.old).phase ≡ Phase.Running }
        ensures told { IsTold (P.told post.new) (P.view post.new) }
        ensures marks { MarksFollow (P.own_marks post.old) (P.own_marks post.new) self.old.marks self.new.marks }
        ensures worker { IsWorker self.new (P.view post.new) }
        ensures turn { GoesOnEmpty (may_command self.old) self.old.wrote self.old (P.view post.old) (P.told post.old) result self.new (P.view post.new) (P.told post.new) }
    {
        let left = self.commands.len() - self.position as usize;
        if self.quota > 0 && left > 0 && !self.found_empty {
            self.lock_for_command(post, gate)
        } else if !self.wrote {
            Ok(self.lock_own(post))
        } else {
            Ok(self.stand(post))
        }
    }
}

impl Worker {
    /// Takes this in hand, where nothing was.
    pub(crate) fn put(&mut self, hand: Hand)
        requires free { self.old.hand ≡ Hand.Empty }
        ensures is { self.new ≡ with_hand self.old hand }
    {
        put_in(&mut self.hand, hand);
    }

    /// One event more is done, and this is in hand, where nothing was.
    pub(crate) fn did(&mut self, hand: Hand) -> Turn
        requires free { self.old.hand ≡ Hand.Empty }
        requires few { self.old.done ≤ 10000016 }
        ensures is { self.new ≡ one_more self.old hand }
        ensures did { result ≡ Turn.Did }
    {
        self.put(hand);
        self.done += 1;
        Turn::Did
    }
}
