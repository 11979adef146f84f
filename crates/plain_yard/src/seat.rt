//! What a plain yard keeps of a thread, and what each call makes of it.

ghost use Rattle.std.specs.Prelude.{◌≡◌, ◌+◌, ◌<◌, ◌≤◌, length, replicate};
ghost use Rattle.plain_yard.specs.Seats.{opening_seat, look_seat, power_seat, tick_seat, off_seat, run_seat, stand_seat, lock_seat, draw_seat, freed_seat, given_seat, close_seat, release_seat};
ghost use Rattle.plain_yard.specs.Seats.{room_of_seat, learnt_more, unlearnt, LearnsOneMore};

use crate::room::position_in;
use restart_point::ThreadEnd;
use seq_object::{Entry, Noted, RestartPoint, Settings};
use yard_model::{GivenBack, Look, Phase, Room};

/// An entry that was drawn, and the epoch in which it was.
#[derive(Clone, Copy)]
pub struct Drawn {
    pub entry: Entry,
    pub epoch: u32,
}

/// A thread's room as it was taken: the restart point by loads and as memory has it at the epoch, and the end.
#[derive(Clone, Copy)]
pub struct Position {
    pub point: RestartPoint,
    pub in_memory: RestartPoint,
    pub end: ThreadEnd,
}

/// A room that a thread holds.
#[derive(Clone, Copy)]
pub struct Holding {
    pub room: u32,
    /// How many entries of all rooms were drawn before it was taken.
    pub before: u64,
    /// How many of them the last checkpoint covered then.
    pub covered: u64,
    /// Where it is a thread's room.
    pub position: Option<Position>,
    /// The entry that was drawn since.
    pub drawn: Option<Noted>,
}

/// What a thread that closes has done and learnt.
#[derive(Clone, Copy)]
pub struct Learnt {
    /// How many rooms are done.
    pub rooms: u32,
    /// Whether the queue has an item, once its room is done.
    pub fed: Option<bool>,
    /// Places for the ends of 16 threads.
    pub ends: [ThreadEnd; 16],
    /// How many of them are learnt.
    pub known: u32,
}

/// What is kept of one thread: the fields of its view, but for what is read off the list of all entries, and for its number, which is
/// its place.
#[derive(Clone, Copy)]
pub struct Seat {
    pub phase: Phase,
    pub quota: u32,
    pub ran: u32,
    pub wrote: bool,
    pub found_empty: bool,
    pub holding: Option<Holding>,
    pub given_back: Option<GivenBack>,
    pub checkpoints: u32,
    pub last_checkpoint: u32,
    pub ticks: u64,
    pub looks: u64,
    pub look: Look,
    pub saw_on: bool,
    pub saw_off: bool,
    pub called_off: bool,
    pub learnt: Learnt,
}

impl Seat {
    /// The seat of a thread that stands and has done nothing.
    pub(crate) fn opening() -> Seat
        ensures { result ≡ opening_seat (replicate 16 ThreadEnd.Ready) }
    {
        Seat {
            phase: Phase::Standing,
            quota: 0,
            ran: 0,
            wrote: false,
            found_empty: false,
            holding: None,
            given_back: None,
            checkpoints: 0,
            last_checkpoint: 0,
            ticks: 0,
            looks: 0,
            look: Look { word: 0, found: 0 },
            saw_on: false,
            saw_off: false,
            called_off: false,
            learnt: Learnt {
                rooms: 0,
                fed: None,
                ends: [ThreadEnd::Ready; 16],
                known: 0,
            },
        }
    }

    /// With one look more.
    pub(crate) fn looking(self, word: u64, found: u64) -> Seat
        ensures { result ≡ look_seat word found self }
    {
        Seat {
            looks: self.looks.saturating_add(1),
            look: Look { word, found },
            ..self
        }
    }

    /// With what the tick word told of the power.
    pub(crate) fn seeing(self, off: bool) -> Seat
        ensures { result ≡ power_seat off self }
    {
        Seat {
            saw_on: self.saw_on || !off,
            saw_off: self.saw_off || off,
            ..self
        }
    }

    /// With one event counted.
    pub(crate) fn ticking(self) -> Seat
        requires { self.ticks ≤ 4294967296 }
        ensures { result ≡ tick_seat self }
    {
        Seat {
            ticks: self.ticks + 1,
            saw_on: false,
            ..self
        }
    }

    /// Of a thread that turned the power off.
    pub(crate) fn turning_off(self) -> Seat
        ensures { result ≡ off_seat self }
    {
        Seat {
            saw_off: true,
            called_off: true,
            ..self
        }
    }

    /// In an epoch, with a whole quota.
    pub(crate) fn running(self, epoch: u32, every: u32) -> Seat
        ensures { result ≡ run_seat epoch every self }
    {
        Seat {
            phase: Phase::Running,
            ran: epoch,
            quota: every,
            wrote: false,
            found_empty: false,
            ..self
        }
    }

    /// At the restart point.
    pub(crate) fn standing(self) -> Seat
        ensures { result ≡ stand_seat self }
    {
        Seat {
            phase: Phase::Standing,
            ..self
        }
    }

    /// With a room in hand, taken behind so many entries, so many of which the last checkpoint covers.
    pub(crate) fn locking(self, room: u32, before: u64, covered: u64, value: &Room) -> Seat
        ensures { result ≡ lock_seat room before covered value.now self }
    {
        Seat {
            holding: Some(Holding {
                room,
                before,
                covered,
                position: position_in(value, self.ran),
                drawn: None,
            }),
            ..self
        }
    }

    /// With an entry drawn, at this place.
    pub(crate) fn drawing(self, place: u64, entry: Entry) -> Seat
        requires { 0 < self.quota }
        ensures { result ≡ draw_seat place entry self }
    {
        let holding = match self.holding {
            Some(holding) => Some(Holding {
                drawn: Some(Noted {
                    ticket: place,
                    entry,
                }),
                ..holding
            }),
            None => None,
        };
        Seat {
            quota: self.quota - 1,
            holding,
            ..self
        }
    }

    /// With this room given back in mid-work.
    pub(crate) fn retreated(self, room: u32) -> Seat
        ensures { result ≡ given_seat room self }
    {
        let none = match self.holding {
            Some(holding) => holding.drawn.is_none(),
            None => true,
        };
        Seat {
            holding: None,
            given_back: Some(GivenBack { room, drew: !none }),
            ..self
        }
    }

    /// Closing, with nothing done.
    pub(crate) fn closing(self) -> Seat
        ensures { result ≡ close_seat self }
    {
        Seat {
            phase: Phase::Closing,
            learnt: self.learnt.cleared(),
            ..self
        }
    }

    /// Standing, with one checkpoint more, which began the next epoch.
    pub(crate) fn released(self) -> Seat
        requires checkpoints { self.checkpoints + 1 < 4294967296 }
        requires epoch { self.ran + 1 < 4294967296 }
        ensures { result ≡ release_seat self }
    {
        Seat {
            phase: Phase::Standing,
            checkpoints: self.checkpoints + 1,
            last_checkpoint: self.ran + 1,
            learnt: self.learnt.cleared(),
            ..self
        }
    }

    /// The number of the room that is held.
    pub(crate) fn room(&self) -> Option<u32>
        ensures { result ≡ room_of_seat self.now.holding }
    {
        match self.holding {
            Some(holding) => Some(holding.room),
            None => None,
        }
    }

    /// The seat of a thread that gave this room back, of which it is told whether it is a queue room with no item, and its end.
    pub(crate) fn freed(
        self,
        settings: &Settings,
        thread: u32,
        room: u32,
        empty: bool,
        end: ThreadEnd,
    ) -> Seat
        requires places { length self.learnt.ends ≡ 16 }
        requires shards { settings.now.shards ≤ 64 }
        requires threads { settings.now.threads ≤ 16 }
        requires thread { thread < 16 }
        requires learns { self.phase ≡ Phase.Closing → LearnsOneMore settings.now room self.learnt }
        ensures { result ≡ freed_seat settings.now thread room empty end self }
    {
        let mut seat = self;
        let none = match seat.holding {
            Some(holding) => holding.drawn.is_none(),
            None => true,
        };
        seat.wrote = seat.wrote || room == settings.shards + 1 + thread;
        match seat.phase {
            Phase::Standing => {}
            Phase::Running => {
                seat.found_empty = seat.found_empty || (room == settings.shards && none && empty);
            }
            Phase::Closing => seat.learnt = seat.learnt.with(settings, room, empty, end),
        }
        seat.holding = None;
        seat
    }
}

impl Learnt {
    /// Nothing done and nothing learnt.
    fn cleared(self) -> Learnt
        ensures { result ≡ unlearnt self }
    {
        Learnt {
            rooms: 0,
            fed: None,
            known: 0,
            ..self
        }
    }

    /// One more room is done, and what it tells is learnt.
    fn with(self, settings: &Settings, room: u32, empty: bool, end: ThreadEnd) -> Learnt
        requires places { length self.ends ≡ 16 }
        requires shards { settings.now.shards ≤ 64 }
        requires threads { settings.now.threads ≤ 16 }
        requires learns { LearnsOneMore settings.now room self }
        ensures { result ≡ learnt_more settings.now room empty end self }
    {
        let mut learnt = self;
        learnt.rooms += 1;
        if room == settings.shards {
            learnt.fed = Some(!empty);
        }
        if settings.shards < room && room < settings.shards + 1 + settings.threads {
            learnt.ends[learnt.known as usize] = end;
            learnt.known += 1;
        }
        learnt
    }
}
