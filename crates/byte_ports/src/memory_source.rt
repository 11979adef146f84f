//! A source in memory of which the calls fail whose numbers stand on a list.

ghost use Rattle.std.specs.Prelude.{◌≡◌, ◌↔◌, ◌<◌, ◌≤◌, [], length, take, Some, IsErr, IfOk, OnErr, IsTrue};
ghost use Rattle.byte_ports.specs.Causes.{Rose};
ghost use Rattle.byte_ports.specs.Bytes.{TookSoFar};
ghost use Rattle.byte_ports.specs.InMemory.{no_calls, is_next_failing, read_count, after_read};

use crate::fail_list::FailList;
use crate::refusal::Failed;
use crate::rest::Rest;
use crate::source::Source;
use std::marker::Model;

/// Bytes in memory, to be read once from front to back. A contract sees the bytes left, and which calls of `read` fail.
#[derive(Drop)]
pub struct MemorySource {
    rest: Rest,
    calls: FailList,
}

impl Model for MemorySource {
    ghost use Rattle.byte_ports.specs.InMemory.{SourceState};

    ghost Value = { SourceState };

    ghost view = { λ s. record { left = s.rest; calls = s.calls } };
}

impl MemorySource {
    /// A source of these bytes, whose k-th call of `read` fails where `fails` holds k. The first call is number 1. With an empty list no
    /// call fails.
    pub fn new(bytes: Vec<u8>, fails: Vec<u64>) -> MemorySource
        ensures left { result.left ≡ bytes.items }
        ensures calls { result.calls ≡ no_calls fails.items }
    {
        MemorySource {
            rest: Rest::new(bytes),
            calls: FailList::new(fails),
        }
    }
}

impl Source for MemorySource {
    ghost left = { λ s. Some s.left };

    ghost count = { λ s. s.calls.faults };

    fn faults(&self) -> u64 {
        self.calls.faults()
    }

    fn read(&mut self, buf: &mut [u8]) -> Result<usize, Failed>
        ensures fails { IsErr result ↔ IsTrue (is_next_failing self.old.calls) }
        ensures count { IfOk result (λ n. n ≡ read_count self.old (length buf.new)) }
        ensures after { self.new ≡ after_read self.old (length buf.new) }

        ensures bound { IfOk result (λ n. n ≤ length buf.new) }
        ensures taken { IfOk result (λ n. TookSoFar (Some self.old.left) (Some self.new.left) (take n buf.new)) }
        ensures end { IfOk result (λ n. n ≡ 0 → 0 < length buf.new → self.old.left ≡ []) }
        ensures same { OnErr result (self.new.left ≡ self.old.left) }
        ensures later { self.old.calls.faults ≤ self.new.calls.faults }
        ensures failed { OnErr result (Rose self.old.calls.faults self.new.calls.faults) }
    {
        if self.calls.fails_now() {
            return Err(Failed);
        }
        Ok(self.rest.take_into(buf))
    }
}
