//! The events of a restore, and the list of those that are left. The list is made when the restore begins, so that an
//! event takes no memory.

ghost use Rattle.std.specs.Prelude.{◌≡◌, ◌∷◌, ◌++◌, true, IsTrue, ◌↔◌, ◌<◌, ◌≤◌, length, IfOk, OnOk};
ghost use Rattle.line_memory.specs.Line.{AreLines, line_at};
ghost use Rattle.room_model.specs.Cell.{tag_of};
ghost use Rattle.incll_var.specs.Cells.{HasSameCells};
ghost use Rattle.incll_var.specs.Restore.{tagged_from, restores, asks, restore_events, bank_after, step_of, CanDo};
ghost use Rattle.incll_var.specs.Restore.{HaveRoomToRestore};

use line_memory::Bank;
use room_model::TAG;
use std::alloc::{AllocError, Global};
use std::marker::Model;

/// An event of a restore.
#[derive(Clone, Copy, Debug, PartialEq, Eq)]
pub enum RestoreEvent {
    /// A word of the record of a line gets its backup: the number of the line, and that of the word.
    Restores(u32, u32),
    /// A line is written back.
    Asks(u32),
    /// What was written back is in memory.
    Fences,
}

/// What a step of a restore did.
#[derive(Clone, Copy, Debug, PartialEq, Eq)]
pub enum RestoreStep {
    /// A store was made.
    Stored,
    /// A line was written back.
    Wrote,
    /// A fence was made.
    Fenced,
    /// Nothing was left to do.
    Finished,
}

/// The events of a restore that are left, in order.
#[derive(Drop)]
pub struct Todo {
    events: Vec<RestoreEvent>,
    done: usize,
}

impl Model for Todo {
    ghost use Rattle.std.specs.Prelude.{List, drop};
    ghost use Rattle.incll_var.specs.declared.restore.RestoreEvent.{RestoreEvent};

    ghost Value = { List RestoreEvent };

    ghost view = { λ a. drop a.done a.events.items };
}

impl Todo {
    ghost use Rattle.std.specs.Prelude.{[]};

    /// Nothing to do. It takes no memory.
    pub(crate) fn nothing(alloc: Global) -> Todo
        ensures { result ≡ [] }
    {
        Todo {
            events: Vec::new(alloc),
            done: 0,
        }
    }

    /// The events of a restore of these lines.
    pub(crate) fn of(alloc: Global, lines: &[u32]) -> Result<Todo, AllocError>
        ensures { IfOk result (λ todo. todo ≡ restore_events lines.now) }
    {
        let events = events_of(alloc, lines)?;
        Ok(Todo { events, done: 0 })
    }

    /// Whether no event is left.
    pub(crate) fn is_empty(&self) -> bool
        ensures { IsTrue result ↔ (length self.now ≡ 0) }
    {
        self.done >= self.events.len()
    }

    /// Takes the first event that is left.
    pub(crate) fn take_first(&mut self) -> RestoreEvent
        requires { 0 < length self.old }
        ensures { self.old ≡ result ∷ self.new }
    {
        let event = self.events[self.done];
        self.done += 1;
        event
    }
}

/// Does an event of a restore.
pub(crate) fn do_event(bank: &mut Bank, event: RestoreEvent) -> RestoreStep
    requires { CanDo event bank.old.lines }
    ensures step { result ≡ step_of event }
    ensures bank { bank.new ≡ bank_after event bank.old }
    ensures whole { AreLines bank.new.lines }
{
    match event {
        RestoreEvent::Restores(line, word) => {
            let value = bank.load(line, word + 3);
            bank.store(line, word, value);
            RestoreStep::Stored
        }
        RestoreEvent::Asks(line) => {
            bank.write_back(line);
            RestoreStep::Wrote
        }
        RestoreEvent::Fences => {
            bank.fence();
            RestoreStep::Fenced
        }
    }
}

/// The lines that are tagged with this epoch, ascending.
pub(crate) fn tagged_lines(alloc: Global, bank: &Bank, epoch: u32) -> Result<Vec<u32>, AllocError>
    ensures { IfOk result (λ lines. lines.items ≡ tagged_from epoch 0 bank.now.lines) }
{
    let mut tagged = Vec::new(alloc);
    for line in 0..bank.lines() {
        if bank.base(line)[TAG as usize] == u64::from(epoch) {
            tagged.push(line)?;
        }
    }
    Ok(tagged)
}

/// Makes room for the stores of the restore of each line that is tagged with this epoch. Refused, it may have made some.
pub(crate) fn reserve_tagged(bank: &mut Bank, epoch: u32) -> Result<(), AllocError>
    ensures room { OnOk result (HaveRoomToRestore epoch bank.new.lines) }
    ensures same { HasSameCells bank.old bank.new }
    ensures whole { AreLines bank.new.lines }
{
    for line in 0..bank.lines() {
        reserve_line(bank, line, epoch)?;
    }
    Ok(())
}

/// Makes room for the stores of the restore of a line, if it is tagged with this epoch.
fn reserve_line(bank: &mut Bank, line: u32, epoch: u32) -> Result<(), AllocError>
    requires { line < length bank.old.lines }
    ensures room { OnOk result (tag_of (line_at bank.new.lines line).base ≡ epoch → 3 ≤ (line_at bank.new.lines line).spare) }
    ensures same { HasSameCells bank.old bank.new }
    ensures whole { AreLines bank.new.lines }
{
    let tag = bank.base(line)[TAG as usize];
    let _lines = bank.lines();
    if tag != u64::from(epoch) {
        return Ok(());
    }
    bank.reserve(line, 3)
}

/// Adds the stores of a restore of these lines.
fn push_restores(events: &mut Vec<RestoreEvent>, lines: &[u32]) -> Result<(), AllocError>
    ensures { OnOk result (events.new.items ≡ events.old.items ++ restores lines.now) }
{
    for line in lines {
        events.push(RestoreEvent::Restores(*line, 0))?;
        events.push(RestoreEvent::Restores(*line, 1))?;
        events.push(RestoreEvent::Restores(*line, 2))?;
    }
    Ok(())
}

/// Adds the write-backs of these lines.
fn push_asks(events: &mut Vec<RestoreEvent>, lines: &[u32]) -> Result<(), AllocError>
    ensures { OnOk result (events.new.items ≡ events.old.items ++ asks lines.now) }
{
    for line in lines {
        events.push(RestoreEvent::Asks(*line))?;
    }
    Ok(())
}

/// The events of a restore of these lines.
fn events_of(alloc: Global, lines: &[u32]) -> Result<Vec<RestoreEvent>, AllocError>
    ensures { IfOk result (λ events. events.items ≡ restore_events lines.now) }
{
    let mut events = Vec::new(alloc);
    if !lines.is_empty() {
        push_restores(&mut events, lines)?;
        push_asks(&mut events, lines)?;
        events.push(RestoreEvent::Fences)?;
    }
    Ok(events)
}
