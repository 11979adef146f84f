//! A writer as a sink. It tells the bytes that the writer tells, and counts each of its errors.

ghost use Rattle.std.specs.Prelude.{◌≡◌, ℕ, ◌<◌, ◌≤◌, length, take, IfOk, OnOk, OnErr, IsErrOf};
ghost use Rattle.byte_ports.specs.Causes.{raised, Rose};
ghost use Rattle.byte_ports.specs.Bytes.{Keeps, Appended};

use crate::refusal::StoreRefusal;
use crate::sink::Sink;
use std::io;
use std::io::{Print, Printer, Write};

/// What is written to a writer. A contract sees the bytes that it holds where the writer tells them, and how many writes failed.
#[derive(Drop)]
pub struct WriterSink<W: Write + Drop> {
    writer: W,
    /// How many calls have failed. It stands still at `u64::MAX`.
    pub faults: u64,
}

/// Standard output as a sink, where `R` is a runtime.
pub type StdoutSink<'a, R> = WriterSink<Printer<'a, R>>;

impl<'a, R: Print> WriterSink<Printer<'a, R>> {
    /// The standard output of this runtime.
    pub fn new(rt: &'a R) -> StdoutSink<'a, R>
        ensures { result.faults ≡ 0 }
    {
        WriterSink::over(io::writer(rt))
    }
}

impl<W: Write + Drop> WriterSink<W> {
    /// The sink over a writer.
    pub fn over(writer: W) -> WriterSink<W>
        ensures writer { result.writer ≡ writer }
        ensures faults { result.faults ≡ 0 }
    {
        WriterSink { writer, faults: 0 }
    }
}

impl<W: Write + Drop> Sink for WriterSink<W> {
    ghost held = { λ s. W.contents s.writer };

    ghost count = { λ s. s.faults };

    fn faults(&self) -> u64 {
        self.faults
    }

    /// A write that takes nothing of a piece that is not empty counts as an error.
    fn write(&mut self, piece: &[u8]) -> Result<usize, StoreRefusal>
        ensures fine { OnOk result (self.new.faults ≡ self.old.faults) }
        ensures counted { OnErr result (self.new.faults ≡ raised self.old.faults) }
        ensures only { OnErr result (IsErrOf result StoreRefusal.Failed) }

        ensures bound { IfOk result (λ n. n ≤ length piece.now) }
        ensures some { IfOk result (λ n. 0 < length piece.now → 0 < n) }
        ensures appended { IfOk result (λ n. Appended (W.contents self.old.writer) (W.contents self.new.writer) (take n piece.now)) }
        ensures same { OnErr result (Keeps (W.contents self.old.writer) (W.contents self.new.writer)) }
        ensures later { self.old.faults ≤ self.new.faults }
        ensures failed { IsErrOf result StoreRefusal.Failed → Rose self.old.faults self.new.faults }
    {
        match self.writer.write(piece) {
            Ok(n) if 0 < n || piece.is_empty() => Ok(n),
            _ => {
                self.faults = self.faults.saturating_add(1);
                Err(StoreRefusal::Failed)
            }
        }
    }
}
