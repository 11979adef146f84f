//! Stores under test.

ghost use Rattle.std.specs.Prelude.{◌≡◌, Bool, true, IfOk, List};
ghost use Rattle.crash_explorer.specs.Cut.{Cut, IsRecovered, bare};

use crate::recovered::Recovered;
use line_memory::Bank;
use std::alloc::{AllocError, Global};

/// A store on lines that makes one event after the other: a store, a write-back, a fence, or a word to its user. The events of two runs
/// from one state are the same. So the room for the stores of a line is made before.
pub trait Subject {
    ghost cut: { Self → Cut };

    ghost next: { Self → Self };

    ghost goes_on: { Self → Bool };

    /// Makes the next event, and says whether there was one.
    fn step(&mut self) -> Result<bool, AllocError>
        ensures went { IfOk result (λ went. went ≡ goes_on self.old) }
        ensures next { IfOk result (λ went. went ≡ true → self.new ≡ next self.old) };

    /// The lines as they are now.
    fn bank(&self) -> &Bank
        ensures { bare result.now.lines ≡ (cut self.now).lines };

    /// Recovers from these words of the lines, in so many steps at the most, and leaves the lines as they then are. A step is an event
    /// of recovery: a store, a write-back or a fence. It reads nothing of the running store but its settings.
    fn recover(
        &self,
        alloc: Global,
        left: Vec<[u64; 8]>,
        steps: u32,
    ) -> Result<Recovered, AllocError>
        ensures { IfOk result (IsRecovered ((cut self.now).recovered steps left.items)) };

    /// Whether a cut now may recover to this state, by what the store has acknowledged.
    fn is_allowed(&self, state: &[u64]) -> bool
        ensures { result ≡ (cut self.now).allows state.now };
}
