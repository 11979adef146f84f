//! A replay between two turns.

ghost use Rattle.std.specs.Prelude.{◌≡◌, ◌<◌, length};
ghost use Rattle.replay_model.specs.Replays.{is_over_in, TurnOf, TurnsOff};
ghost use Rattle.replay_model.specs.Kept.{IsReplay};
ghost use Rattle.script_run.specs.Runs.{HaveDone};

use plain_yard::{PlainPost, PlainYard};
use restart_point::Arrival;
use room_yard::Post as _;
use std::alloc::AllocError;
use std::marker::Model;
use worker::{NoGate, Turn, Worker};

/// A yard, and a worker for each of its threads.
#[derive(Drop)]
pub(crate) struct Replay {
    pub(crate) yard: PlainYard,
    pub(crate) workers: Vec<Worker>,
}

impl Model for Replay {
    ghost use Rattle.replay_model.specs.Replays.{ReplayState};

    ghost Value = { ReplayState };

    ghost view = { λ a. record { yard = a.yard; workers = a.workers.items } };
}

/// A replay behind a turn, and what the turn answered.
#[derive(Drop)]
pub(crate) struct Turned {
    pub(crate) replay: Replay,
    pub(crate) answer: Result<Turn, AllocError>,
}

impl Replay {
    /// Whether the arrival word shows that the life is over.
    pub(crate) fn is_over(&self) -> bool
        ensures { result ≡ is_over_in self.now }
    {
        Arrival::of(self.yard.arrival()).over
    }

    /// A turn of a thread.
    pub(crate) fn turn(self, thread: u32) -> Turned
        requires replay { IsReplay self }
        requires thread { thread < length self.workers }
        requires few { HaveDone 10000016 self }
        ensures turn { TurnOf thread self result.answer result.replay }
        ensures replay { IsReplay result.replay }
    {
        let Replay { yard, workers } = self;
        let mut workers = workers;
        let mut post = PlainPost::of(yard, thread);
        let answer = workers[thread as usize].turn(&mut post, &NoGate);
        Turned {
            replay: Replay {
                yard: post.into_yard(),
                workers,
            },
            answer,
        }
    }

    /// Turns the power off for a thread, whose worker then gives up what it has in hand.
    pub(crate) fn turn_off(self, thread: u32) -> Replay
        requires replay { IsReplay self }
        requires thread { thread < length self.workers }
        requires few { HaveDone 10000016 self }
        ensures off { TurnsOff thread self result }
        ensures replay { IsReplay result }
        ensures few { HaveDone 10000016 result }
    {
        let Replay { yard, workers } = self;
        let mut workers = workers;
        let mut post = PlainPost::of(yard, thread);
        post.off();
        let _over = workers[thread as usize].turn(&mut post, &NoGate);
        Replay {
            yard: post.into_yard(),
            workers,
        }
    }
}
