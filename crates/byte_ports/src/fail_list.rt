//! Which calls of an object in memory fail: those whose numbers stand on a list. The calls are counted from 1, and so are the failures.

ghost use Rattle.std.specs.Prelude.{◌≡◌, ◌≤◌, IsTrue};
ghost use Rattle.byte_ports.specs.Causes.{Rose};
ghost use Rattle.byte_ports.specs.InMemory.{FailState, no_calls, is_next_failing, after_call};

use std::marker::Model;

/// The calls that fail, and how many calls and failures there were.
#[derive(Drop)]
pub(crate) struct FailList {
    fails: Vec<u64>,
    calls: u64,
    faults: u64,
}

impl Model for FailList {
    ghost Value = { FailState };

    ghost view = { λ f. record { fails = f.fails.items; calls = f.calls; faults = f.faults } };
}

impl FailList {
    /// The calls that these numbers say fail, and none made.
    pub(crate) fn new(fails: Vec<u64>) -> FailList
        ensures { result ≡ no_calls fails.items }
    {
        FailList {
            fails,
            calls: 0,
            faults: 0,
        }
    }

    /// How many calls failed.
    pub(crate) fn faults(&self) -> u64
        ensures { result ≡ self.now.faults }
    {
        self.faults
    }

    /// Counts one more call, and says whether it fails.
    pub(crate) fn fails_now(&mut self) -> bool
        ensures fails { result ≡ is_next_failing self.old }
        ensures after { self.new ≡ after_call self.old }
        ensures later { self.old.faults ≤ self.new.faults }
        ensures rose { IsTrue result → Rose self.old.faults self.new.faults }
    {
        let call = self.calls.saturating_add(1);
        let fails = self.fails.as_slice().contains(&call);
        self.calls = call;
        if fails {
            self.faults = self.faults.saturating_add(1);
        }
        fails
    }
}
