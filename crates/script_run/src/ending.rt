//! How a replay ends: each thread gives its room up, the yard is taken apart, and the report is made.

ghost use Rattle.std.specs.Prelude.{◌≡◌, ◌≤◌, ◌<◌, ◌^◌, [], IfOk, length, map, vec_capacity};
ghost use Rattle.std.specs.List.{list_any};
ghost use Rattle.seq_object.specs.Sizes.{IsValid, room_count};
ghost use Rattle.line_memory.specs.Line.{all_write_backs};
ghost use Rattle.yard_model.specs.Beginnings.{sizes_at};
ghost use Rattle.yard_model.specs.Lives.{IsMemoryOf, NamesDead};
ghost use Rattle.plain_yard.specs.Opening.{commands_in};
ghost use Rattle.plain_yard.specs.Shown.{NoneHolds, IsLawfulYard};
ghost use Rattle.script_text.specs.ReportText.{report_of};
ghost use Rattle.replay_model.specs.Replays.{AllTurnOff};
ghost use Rattle.replay_model.specs.Kept.{IsReplay};
ghost use Rattle.replay_model.specs.Endings.{IsReportOfYard};
ghost use Rattle.script_run.specs.Runs.{HaveDone};
ghost use Rattle.script_run.specs.Ends.{HasSpace, TellsBeginning, waits_in, TellsWaiting, TellsWant, outcome_of, Ends};
ghost use Rattle.script_run.specs.Steps.{AreMarksOf};

use crate::replay::Replay;
use crate::run::Run;
use life_model::{Mark, Outcome};
use line_memory::Memory;
use plain_yard::PlainYard;
use restart_point::ThreadEnd;
use room_yard::{World, WorldParts};
use rooms::Room;
use script_text::Report;
use seq_object::{Command, Entry, Settings};
use std::alloc::{AllocError, Global};

/// Empty lists with room for each entry that a life may draw, and for the number of each of its rooms. They are made before the first turn,
/// so that no end of a replay takes memory.
#[derive(Drop)]
pub(crate) struct Space {
    pub(crate) entries: Vec<Entry>,
    pub(crate) numbers: Vec<u32>,
}

/// How a life began, as its report tells it.
#[derive(Clone, Copy)]
pub(crate) struct Began {
    pub(crate) resumed: bool,
    pub(crate) epoch: u32,
}

/// What an ended replay leaves.
#[derive(Drop)]
pub(crate) struct Ended {
    pub(crate) report: Report,
    /// The memory, whatever is pending in it.
    pub(crate) memory: Memory,
}

/// A yard that was taken apart.
#[derive(Drop)]
struct Apart {
    memory: Memory,
    /// The numbers of the rooms that were given back in mid-work, ascending.
    held: Vec<u32>,
    /// Whether a thread waits for an item.
    waits: bool,
}

impl Space {
    /// Space for a life of these settings and scripts. Want of memory is the one refusal.
    pub(crate) fn of(
        alloc: Global,
        settings: Settings,
        scripts: &[Vec<Command>],
    ) -> Result<Space, AllocError>
        requires valid { IsValid settings }
        requires few { commands_in (map (λ s. s.items) scripts.now) < 2 ^ 32 }
        ensures { IfOk result (λ space. HasSpace settings (map (λ s. s.items) scripts.now) space) }
    {
        let rooms = settings.sizes().room_count();
        Ok(Space {
            entries: Vec::with_capacity(alloc, commands_of(scripts))?,
            numbers: Vec::with_capacity(alloc, rooms as usize)?,
        })
    }
}

/// How many commands these scripts have together.
fn commands_of(scripts: &[Vec<Command>]) -> usize
    requires { commands_in (map (λ s. s.items) scripts.now) < 2 ^ 32 }
    ensures { result ≡ commands_in (map (λ s. s.items) scripts.now) }
{
    let mut count = 0;
    for script in scripts {
        count += script.len();
    }
    count
}

impl Run {
    /// Ends a run: each thread gives its room up, and the report is made. It takes no memory.
    pub(crate) fn end(self, began: Began, space: Space) -> Ended
        requires replay { IsReplay self.replay }
        requires few { HaveDone 10000016 self.replay }
        requires began { TellsBeginning began self.replay.yard.beginning }
        requires marks { AreMarksOf self.marks.items self.replay }
        requires space { HasSpace self.replay.yard.beginning.settings self.replay.yard.beginning.scripts space }
        ensures ends { Ends self.dry self.replay (report_of result.report) result.memory }
        ensures flushed { result.report.flushed ≡ all_write_backs result.memory }
    {
        let Run { replay, marks, dry } = self;
        replay.turn_all_off().report(began, marks, dry, space)
    }
}

impl Replay {
    /// How many threads there are.
    fn threads(&self) -> u32
        requires { IsReplay self.now }
        ensures { result ≡ length self.now.workers }
    {
        self.workers.len() as u32
    }

    /// Turns the power off for all threads, each of whose workers gives up what it has in hand.
    pub(crate) fn turn_all_off(self) -> Replay
        requires replay { IsReplay self }
        requires few { HaveDone 10000016 self }
        ensures off { AllTurnOff 0 (length self.workers) self result }
        ensures replay { IsReplay result }
        ensures none { NoneHolds result.yard }
        ensures beginning { result.yard.beginning ≡ self.yard.beginning }
        ensures history { result.yard.told.history ≡ self.yard.told.history }
        ensures checkpoints { result.yard.told.checkpoints ≡ self.yard.told.checkpoints }
    {
        let threads = self.threads();
        let mut replay = self;
        for thread in 0..threads {
            replay = replay.turn_off(thread);
        }
        replay
    }

    /// The report of a replay in which no thread holds a room, with the marks of its run; `dry` says that memory ran out. It takes no memory.
    fn report(self, began: Began, marks: Vec<Mark>, dry: bool, space: Space) -> Ended
        requires replay { IsReplay self }
        requires none { NoneHolds self.yard }
        requires began { TellsBeginning began self.yard.beginning }
        requires marks { AreMarksOf marks.items self }
        requires space { HasSpace self.yard.beginning.settings self.yard.beginning.scripts space }
        ensures report { IsReportOfYard self.yard (report_of result.report) result.memory }
        ensures want { TellsWant dry result.report.outcome }
        ensures flushed { result.report.flushed ≡ all_write_backs result.memory }
    {
        let over = self.is_over();
        let Replay { yard, workers: _ } = self;
        let Space { entries, numbers } = space;
        let entries = drawn(&yard, entries);
        let Apart {
            memory,
            held,
            waits,
        } = take_apart(yard, numbers);
        Ended {
            report: Report {
                resumed: began.resumed,
                began: began.epoch,
                entries,
                marks,
                held,
                flushed: memory.write_backs(),
                outcome: outcome(dry, over, waits),
            },
            memory,
        }
    }
}

/// The entries of a yard, in an empty list that has room for them. It takes no memory.
fn drawn(yard: &PlainYard, entries: Vec<Entry>) -> Vec<Entry>
    requires empty { entries.items ≡ [] }
    requires room { length yard.now.told.history ≤ vec_capacity entries }
    ensures { result.items ≡ yard.now.told.history }
{
    let mut drawn = entries;
    for place in 0..yard.entries() {
        drawn.push_reserved(yard.entry(place));
    }
    drawn
}

/// Takes a yard apart, in which no thread holds a room. `numbers` has room for the number of each room. It takes no memory.
fn take_apart(yard: PlainYard, numbers: Vec<u32>) -> Apart
    requires home { NoneHolds yard }
    requires numbers { room_count (sizes_at yard.beginning) ≤ vec_capacity numbers }
    ensures memory { IsMemoryOf yard.beginning yard.told.world result.memory }
    ensures held { NamesDead yard.beginning yard.told.world result.held.items }
    ensures waits { TellsWaiting result.waits yard.beginning yard.told.world }
    ensures lawful { IsLawfulYard yard }
{
    let world = yard.take_apart();
    let waits = have_waiting(world.rooms());
    let WorldParts {
        rooms,
        arrival,
        clock,
        held,
        spare,
    } = world.into_parts();
    let world = World::of(WorldParts {
        rooms,
        arrival,
        clock,
        held: numbers,
        spare,
    });
    Apart {
        memory: world.memory(),
        held,
        waits,
    }
}

/// Whether one of these rooms is of a thread that waits for an item.
fn have_waiting(rooms: &[Room]) -> bool
    ensures { result ≡ list_any waits_in rooms.now }
{
    rooms.iter().any(|room| is_waiting(room))
}

/// Whether this is the room of a thread that waits for an item.
fn is_waiting(room: &Room) -> bool
    ensures { result ≡ waits_in room.now }
{
    match room {
        Room::Thread(own) => own.end() == ThreadEnd::Waits,
        Room::Map(_) | Room::Queue(_) | Room::Super(_) => false,
    }
}

/// How a life ends, of which memory ran out or not, that is over or not, and of which a thread waits or not.
fn outcome(dry: bool, over: bool, waits: bool) -> Outcome
    ensures { result ≡ outcome_of dry over waits }
{
    match (dry, over, waits) {
        (true, _, _) => Outcome::Starved,
        (false, false, _) => Outcome::Cut,
        (false, true, true) => Outcome::Stalled,
        (false, true, false) => Outcome::Finished,
    }
}
