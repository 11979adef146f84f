//! A small store of two variables on persistent memory, with a checkpoint at the end of each epoch, and four ways to get it wrong. Each of
//! these differs from the right store in the one line that names its mistake.
//!
//! Line 0 has the epoch in word 0. Line 1 + v is the cell of variable v: word 0 its record, word 1 its backup, word 2 its tag. The first
//! write of an epoch keeps the record in the backup, sets the tag to the epoch, and then stores the record; since these are stores to
//! one line, a cut keeps them in this order. A closing writes the cells back and fences, and only then stores the next epoch, writes it
//! back and fences. Recovery stores the backup of each cell whose tag is the epoch to its record and writes the cell back, and then ends
//! with the next epoch as a closing does.

ghost use Rattle.std.specs.Prelude.{◌≡◌, ◌+◌, ◌<◌, ◌^◌, IfOk};
ghost use Rattle.explore_example.specs.Events.{write_events, closing_events, all_events, restore_events, end_events, recovery_events, WriteLaw, ClosingLaw, RecoveryLaw};

use crate::event::Event;
use crate::mistake::Mistake;
use std::alloc::{AllocError, Global};

/// The events of the first write of a variable in this epoch, where it had this value before.
pub fn write(
    alloc: Global,
    mistake: Mistake,
    epoch: u64,
    variable: u32,
    old: u64,
    value: u64,
) -> Result<Vec<Event>, AllocError>
    requires { variable < 2 }
    ensures { IfOk result (λ events. events.items ≡ write_events mistake epoch variable old value) }
{
    let line = 1 + variable;
    let begin = Event::Write(variable, value);
    let backup = Event::Store(line, 1, old);
    let tag = Event::Store(line, 2, epoch);
    let record = Event::Store(line, 0, value);
    let events = match mistake {
        Mistake::RecordFirst => vec![in alloc; begin, record, backup, tag]?,
        _ => vec![in alloc; begin, backup, tag, record]?,
    };
    Ok(events)
}

/// The events of a closing of this epoch.
pub fn closing(alloc: Global, mistake: Mistake, epoch: u64) -> Result<Vec<Event>, AllocError>
    requires { epoch + 1 < 2 ^ 64 }
    ensures { IfOk result (λ events. events.items ≡ closing_events mistake epoch) }
{
    let begin = Event::Closing;
    let one = Event::WriteBack(1);
    let two = Event::WriteBack(2);
    let fence = Event::Fence;
    let next = Event::Store(0, 0, epoch + 1);
    let zero = Event::WriteBack(0);
    let end = Event::Closed;
    let events = match mistake {
        Mistake::Unfenced => vec![in alloc; begin, one, two, fence, next, zero, end]?,
        Mistake::EpochEarly => vec![in alloc; begin, one, two, next, fence, zero, fence, end]?,
        _ => vec![in alloc; begin, one, two, fence, next, zero, fence, end]?,
    };
    Ok(events)
}

/// The events of two epochs: in the first both variables are written, from 0 to 10 and to 20, and in the second one of them, to 11.
pub fn events_of(alloc: Global, mistake: Mistake) -> Result<Vec<Event>, AllocError>
    ensures { IfOk result (λ events. events.items ≡ all_events mistake) }
{
    let mut events = write(alloc, mistake, 1, 0, 0, 10)?;
    events.append(&mut write(alloc, mistake, 1, 1, 0, 20)?)?;
    events.append(&mut closing(alloc, mistake, 1)?)?;
    events.append(&mut write(alloc, mistake, 2, 0, 10, 11)?)?;
    events.append(&mut closing(alloc, mistake, 2)?)?;
    Ok(events)
}

/// The events that restore the cell of this line, with these words, at this epoch.
fn restore(alloc: Global, epoch: u64, line: u32, cell: &[u64; 8]) -> Result<Vec<Event>, AllocError>
    ensures { IfOk result (λ events. events.items ≡ restore_events epoch line cell.now) }
{
    let events = if cell[2] == epoch {
        vec![in alloc; Event::Store(line, 0, cell[1]), Event::WriteBack(line)]?
    } else {
        Vec::new(alloc)
    };
    Ok(events)
}

/// The last events of a recovery of this epoch.
fn end(alloc: Global, mistake: Mistake, epoch: u64) -> Result<Vec<Event>, AllocError>
    requires { epoch + 1 < 2 ^ 64 }
    ensures { IfOk result (λ events. events.items ≡ end_events mistake epoch) }
{
    let fence = Event::Fence;
    let next = Event::Store(0, 0, epoch + 1);
    let zero = Event::WriteBack(0);
    let events = match mistake {
        Mistake::RecoveryEarly => vec![in alloc; next, fence, zero, fence]?,
        _ => vec![in alloc; fence, next, zero, fence]?,
    };
    Ok(events)
}

/// The events of a recovery of this epoch, where the cells have these words.
pub fn recovery(
    alloc: Global,
    mistake: Mistake,
    epoch: u64,
    first: &[u64; 8],
    second: &[u64; 8],
) -> Result<Vec<Event>, AllocError>
    requires { epoch + 1 < 2 ^ 64 }
    ensures { IfOk result (λ events. events.items ≡ recovery_events mistake epoch first.now second.now) }
{
    let mut events = restore(alloc, epoch, 1, first)?;
    events.append(&mut restore(alloc, epoch, 2, second)?)?;
    events.append(&mut end(alloc, mistake, epoch)?)?;
    Ok(events)
}

/// Each wrong store makes the events of the right one, with one of them moved or left out.
pub fn mistake_laws()
    ensures writes { WriteLaw }
    ensures closings { ClosingLaw }
    ensures recoveries { RecoveryLaw }
{}
