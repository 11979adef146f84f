//! How much was tried.

ghost use Rattle.std.specs.Prelude.{◌≡◌};
ghost use Rattle.crash_explorer.specs.Effort.{no_effort, IsBoth, IsWithSurvivor};

/// How many survivors were tried, and whether these were all.
#[derive(Clone, Copy, Debug)]
pub(crate) struct Effort {
    pub(crate) survivors: u64,
    pub(crate) all: bool,
}

impl Effort {
    /// Nothing, where there is nothing to try.
    pub(crate) fn none() -> Effort
        ensures { result ≡ no_effort }
    {
        Effort {
            survivors: 0,
            all: true,
        }
    }

    /// Both of these.
    pub(crate) fn and(self, other: Effort) -> Effort
        ensures { IsBoth self other result }
    {
        Effort {
            survivors: self.survivors.saturating_add(other.survivors),
            all: self.all && other.all,
        }
    }

    /// This, and one survivor with so much inside its recovery.
    pub(crate) fn and_survivor(self, inside: Effort) -> Effort
        ensures { IsWithSurvivor self inside result }
    {
        Effort {
            survivors: self
                .survivors
                .saturating_add(1)
                .saturating_add(inside.survivors),
            all: self.all && inside.all,
        }
    }
}
