//! Writes the report of a life.

ghost use Rattle.std.specs.Prelude.{◌≡◌, OnOk, OnErr};
ghost use Rattle.std.specs.Result.{IsErrOf};
ghost use Rattle.byte_ports.specs.Bytes.{Appended, AppendedSome};
ghost use Rattle.byte_ports.specs.Causes.{Rose};
ghost use Rattle.script_text.specs.ReportText.{report_of, report_bytes, AreMarksRising};

use byte_ports::{Sink, StoreRefusal, write_all};
use script_text::{Report, report_text};
use std::alloc::Global;

/// Appends the text of a report. After a refusal a first part of it may have been appended.
pub fn write<W: Sink>(alloc: Global, report: &Report, sink: &mut W) -> Result<(), StoreRefusal>
    requires { AreMarksRising (report_of report.now) }
    ensures written { OnOk result (Appended (W.held sink.old) (W.held sink.new) (report_bytes (report_of report.now))) }
    ensures refused { OnErr result (AppendedSome (W.held sink.old) (W.held sink.new) (report_bytes (report_of report.now))) }
    ensures failed { IsErrOf result StoreRefusal.Failed → Rose (W.count sink.old) (W.count sink.new) }
{
    match report_text(alloc, report) {
        Ok(text) => write_all(sink, text.as_slice()),
        Err(_) => Err(StoreRefusal::OutOfMemory),
    }
}
