//! Who is told how far a run has come.

ghost use Rattle.std.specs.Prelude.{ℕ};

/// Someone who is told how far a run has come, as for a line on a screen.
pub trait Watcher {
    ghost tells: { Self → ℕ → ℕ → Self → Type 0 };

    /// So many events were made, and so many survivors were tried.
    fn tell(&mut self, events: u32, survivors: u64)
        ensures { tells self.old events survivors self.new };
}

/// A watcher who says nothing.
#[derive(Clone, Copy, Debug)]
pub struct Silent;

impl Watcher for Silent {
    ghost use Rattle.std.specs.Prelude.{◌≡◌};

    ghost tells = { λ old events survivors new. new ≡ old };

    fn tell(&mut self, _events: u32, _survivors: u64) {}
}
