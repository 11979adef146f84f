//! A drill: lives the nine lives of a number, and writes the text of their summary.

ghost use Rattle.std.specs.Prelude.{◌≡◌, OnOk, OnErr, IfErr};
ghost use Rattle.std.specs.Result.{IsErrOf};
ghost use Rattle.byte_ports.specs.Bytes.{Appended, AppendedSome};
ghost use Rattle.byte_ports.specs.Causes.{Rose};
ghost use Rattle.drill.specs.Summaries.{summary_bytes};
ghost use Rattle.respct.specs.Drills.{HasDrilled, IsUndrilled};

use byte_ports::{Sink, StoreRefusal, write_all};
use drill::{Summary, run_drill, summary_text};
use line_memory::Memory;
use std::alloc::Global;

/// Why a drill ends without its whole text.
#[derive(Clone, Copy, Debug, PartialEq, Eq)]
pub enum NotDrilled {
    /// Memory ran out before the lives were summed up.
    Untold,
    /// The text of the summary could not be written, or not to its end.
    Unwritten(StoreRefusal),
}

/// Lives the nine lives of the drill of this number, and appends the text of their summary. `memory` is then what the last life left; where
/// memory runs out before the lives are summed up, it is empty, or what one of them left.
pub fn drill<W: Sink>(
    alloc: Global,
    number: u64,
    sink: &mut W,
    memory: &mut Memory,
) -> Result<(), NotDrilled>
    ensures drilled { OnOk result (HasDrilled number memory.new (W.held sink.old) (W.held sink.new)) }
    ensures refused { IfErr result (IsUndrilled number memory.new (W.held sink.old) (W.held sink.new) (W.count sink.old) (W.count sink.new)) }
{
    let summary = match run_drill(alloc, number, memory) {
        Ok(summary) => summary,
        Err(_) => return Err(NotDrilled::Untold),
    };
    match tell(alloc, &summary, sink) {
        Ok(()) => Ok(()),
        Err(refusal) => Err(NotDrilled::Unwritten(refusal)),
    }
}

/// Appends the text of a summary. After a refusal a first part of it may have been appended.
fn tell<W: Sink>(alloc: Global, summary: &Summary, sink: &mut W) -> Result<(), StoreRefusal>
    ensures written { OnOk result (Appended (W.held sink.old) (W.held sink.new) (summary_bytes summary.now)) }
    ensures refused { OnErr result (AppendedSome (W.held sink.old) (W.held sink.new) (summary_bytes summary.now)) }
    ensures failed { IsErrOf result StoreRefusal.Failed → Rose (W.count sink.old) (W.count sink.new) }
{
    match summary_text(alloc, summary) {
        Ok(text) => write_all(sink, text.as_slice()),
        Err(_) => Err(StoreRefusal::OutOfMemory),
    }
}
