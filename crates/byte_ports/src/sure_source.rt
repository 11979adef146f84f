//! A source in memory that never fails. Its count of faults is the constant 0, so code over the trait cannot answer that it failed.

ghost use Rattle.std.specs.Prelude.{◌≡◌, Some};

use crate::refusal::Failed;
use crate::rest::Rest;
use crate::source::Source;
use std::marker::Model;

/// Bytes in memory, to be read once from front to back. A contract sees the bytes left.
#[derive(Drop)]
pub struct SureSource {
    rest: Rest,
}

impl Model for SureSource {
    ghost use Rattle.std.specs.Prelude.{ℕ, List};

    ghost Value = { List ℕ };

    ghost view = { λ s. s.rest };
}

impl SureSource {
    /// A source of these bytes.
    pub fn new(bytes: Vec<u8>) -> SureSource
        ensures { result ≡ bytes.items }
    {
        SureSource {
            rest: Rest::new(bytes),
        }
    }
}

impl Source for SureSource {
    ghost left = { λ s. Some s };

    ghost count = { λ _. 0 };

    fn faults(&self) -> u64 {
        0
    }

    fn read(&mut self, buf: &mut [u8]) -> Result<usize, Failed> {
        Ok(self.rest.take_into(buf))
    }
}
