//! A sink in memory that never fails. Its count of faults is the constant 0, so code over the trait cannot answer that it failed.

ghost use Rattle.std.specs.Prelude.{◌≡◌, [], Some};

use crate::refusal::StoreRefusal;
use crate::sink::Sink;
use std::alloc::Global;
use std::marker::Model;

/// Bytes in memory, one piece behind the other. A contract sees the bytes held.
#[derive(Drop)]
pub struct SureSink {
    bytes: Vec<u8>,
}

impl Model for SureSink {
    ghost use Rattle.std.specs.Prelude.{ℕ, List};

    ghost Value = { List ℕ };

    ghost view = { λ s. s.bytes.items };
}

impl SureSink {
    /// An empty sink.
    pub fn new(alloc: Global) -> SureSink
        ensures { result ≡ [] }
    {
        SureSink {
            bytes: Vec::new(alloc),
        }
    }

    /// All bytes held.
    pub fn bytes(&self) -> &[u8]
        ensures { result.now ≡ self.now }
    {
        self.bytes.as_slice()
    }
}

impl Sink for SureSink {
    ghost held = { λ s. Some s };

    ghost count = { λ _. 0 };

    fn faults(&self) -> u64 {
        0
    }

    fn write(&mut self, piece: &[u8]) -> Result<usize, StoreRefusal> {
        match self.bytes.extend_from_slice(piece) {
            Ok(()) => Ok(piece.len()),
            Err(_) => Err(StoreRefusal::OutOfMemory),
        }
    }
}
