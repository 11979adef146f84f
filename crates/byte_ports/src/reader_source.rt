//! A reader as a source. It tells the bytes that the reader tells, and counts each of its errors.

ghost use Rattle.std.specs.Prelude.{◌≡◌, ℕ, ◌<◌, ◌≤◌, length, take, IfOk, OnOk, OnErr};
ghost use Rattle.byte_ports.specs.Causes.{raised, Rose};
ghost use Rattle.byte_ports.specs.Bytes.{Keeps, TookSoFar, IsAtEnd};

use crate::refusal::Failed;
use crate::source::Source;
use std::io::Read;

/// What a reader has left. A contract sees these bytes where the reader tells them, and how many reads failed.
#[derive(Drop)]
pub struct ReaderSource<R: Read + Drop> {
    reader: R,
    /// How many calls have failed. It stands still at `u64::MAX`.
    pub faults: u64,
}

/// Standard input as a source, where `I` is a runtime's reader of it.
pub type StdinSource<I> = ReaderSource<I>;

impl<R: Read + Drop> ReaderSource<R> {
    /// The source over a reader. Of standard input it is made by `StdinSource::new(rt.reader())`; there is one such reader: a second one
    /// could lose bytes that the first has read ahead.
    pub fn new(reader: R) -> ReaderSource<R>
        ensures reader { result.reader ≡ reader }
        ensures faults { result.faults ≡ 0 }
    {
        ReaderSource { reader, faults: 0 }
    }
}

impl<R: Read + Drop> Source for ReaderSource<R> {
    ghost left = { λ s. R.remaining s.reader };

    ghost count = { λ s. s.faults };

    fn faults(&self) -> u64 {
        self.faults
    }

    fn read(&mut self, buf: &mut [u8]) -> Result<usize, Failed>
        ensures fine { OnOk result (self.new.faults ≡ self.old.faults) }
        ensures counted { OnErr result (self.new.faults ≡ raised self.old.faults) }

        ensures bound { IfOk result (λ n. n ≤ length buf.new) }
        ensures taken { IfOk result (λ n. TookSoFar (R.remaining self.old.reader) (R.remaining self.new.reader) (take n buf.new)) }
        ensures end { IfOk result (λ n. n ≡ 0 → 0 < length buf.new → IsAtEnd (R.remaining self.old.reader)) }
        ensures same { OnErr result (Keeps (R.remaining self.old.reader) (R.remaining self.new.reader)) }
        ensures later { self.old.faults ≤ self.new.faults }
        ensures failed { OnErr result (Rose self.old.faults self.new.faults) }
    {
        match self.reader.read(buf) {
            Ok(n) => Ok(n),
            Err(_) => {
                self.faults = self.faults.saturating_add(1);
                Err(Failed)
            }
        }
    }
}
