//! What a run answers.

use crate::outcome::Outcome;

/// What a run found.
#[derive(Debug, Drop)]
pub enum Answer {
    /// Each survivor that was tried is right.
    Right(Tally),
    /// A survivor is wrong. The subject stands behind the event of its cut.
    Wrong(Wrong),
}

/// How much was tried.
#[derive(Clone, Copy, Debug, PartialEq, Eq)]
pub struct Tally {
    /// How many events were made; behind each there was a cut.
    pub events: u32,
    /// How many survivors were recovered, those of cuts inside recovery among them.
    pub survivors: u64,
    /// Whether these were all survivors of each cut.
    pub all: bool,
    /// Whether the subject had no further event; if not, the plan's last event was reached.
    pub ended: bool,
}

/// A survivor that does not recover to an allowed state, or does not where its recovery is cut.
#[derive(Debug, Drop)]
pub struct Wrong {
    /// The number of the event behind which the power was cut, from 1 on.
    pub event: u32,
    /// How many of its pending stores each line keeps.
    pub kept: Vec<u32>,
    /// How many stores are pending on each line.
    pub pending: Vec<u32>,
    /// The cuts inside recovery, each in the recovery from the one before; none where recovery is not cut.
    pub inside: Vec<CutInside>,
    /// What the last recovery came to.
    pub outcome: Outcome,
}

/// A cut inside recovery.
#[derive(Debug, Drop)]
pub struct CutInside {
    /// The number of the event of recovery behind which the power was cut, from 1 on.
    pub event: u32,
    /// How many of its pending stores each line keeps.
    pub kept: Vec<u32>,
    /// How many stores are pending on each line.
    pub pending: Vec<u32>,
}
