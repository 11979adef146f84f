//! A sink in memory of which the calls fail whose numbers stand on a list.

ghost use Rattle.std.specs.Prelude.{◌≡◌, ◌↔◌, ◌<◌, ◌≤◌, [], length, take, Some, Err, IfOk, OnErr, IsErrOf, IsTrue};
ghost use Rattle.byte_ports.specs.Causes.{Rose};
ghost use Rattle.byte_ports.specs.Bytes.{Appended};
ghost use Rattle.byte_ports.specs.InMemory.{no_calls, is_next_failing, after_call};

use crate::fail_list::FailList;
use crate::refusal::StoreRefusal;
use crate::sink::Sink;
use std::alloc::Global;
use std::marker::Model;

/// Bytes in memory, one piece behind the other. A contract sees the bytes held, and which calls of `write` fail.
#[derive(Drop)]
pub struct MemorySink {
    bytes: Vec<u8>,
    calls: FailList,
}

impl Model for MemorySink {
    ghost use Rattle.byte_ports.specs.InMemory.{SinkState};

    ghost Value = { SinkState };

    ghost view = { λ s. record { held = s.bytes.items; calls = s.calls } };
}

impl MemorySink {
    /// An empty sink, whose k-th call of `write` fails where `fails` holds k. The first call is number 1. With an empty list no call fails.
    pub fn new(alloc: Global, fails: Vec<u64>) -> MemorySink
        ensures held { result.held ≡ [] }
        ensures calls { result.calls ≡ no_calls fails.items }
    {
        MemorySink {
            bytes: Vec::new(alloc),
            calls: FailList::new(fails),
        }
    }

    /// All bytes held.
    pub fn bytes(&self) -> &[u8]
        ensures { result.now ≡ self.now.held }
    {
        self.bytes.as_slice()
    }
}

impl Sink for MemorySink {
    ghost held = { λ s. Some s.held };

    ghost count = { λ s. s.calls.faults };

    fn faults(&self) -> u64 {
        self.calls.faults()
    }

    fn write(&mut self, piece: &[u8]) -> Result<usize, StoreRefusal>
        ensures fails { (result ≡ Err StoreRefusal.Failed) ↔ IsTrue (is_next_failing self.old.calls) }
        ensures whole { IfOk result (λ n. n ≡ length piece.now) }
        ensures calls { self.new.calls ≡ after_call self.old.calls }

        ensures bound { IfOk result (λ n. n ≤ length piece.now) }
        ensures some { IfOk result (λ n. 0 < length piece.now → 0 < n) }
        ensures appended { IfOk result (λ n. Appended (Some self.old.held) (Some self.new.held) (take n piece.now)) }
        ensures same { OnErr result (self.new.held ≡ self.old.held) }
        ensures later { self.old.calls.faults ≤ self.new.calls.faults }
        ensures failed { IsErrOf result StoreRefusal.Failed → Rose self.old.calls.faults self.new.calls.faults }
    {
        if self.calls.fails_now() {
            return Err(StoreRefusal::Failed);
        }
        match self.bytes.extend_from_slice(piece) {
            Ok(()) => Ok(piece.len()),
            Err(_) => Err(StoreRefusal::OutOfMemory),
        }
    }
}
