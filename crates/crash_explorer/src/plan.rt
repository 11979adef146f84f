//! How far a run goes.

/// How far a run goes, and how much it tries.
#[derive(Debug, Drop)]
pub struct Plan {
    /// How many events are made at the most.
    pub events: u32,
    /// How many survivors of one cut are tried at the most; where there are more, a sample is tried.
    pub budget: u32,
    /// The seeds of the sample, one survivor for each.
    pub seeds: Vec<u64>,
    /// How many steps a recovery may take.
    pub steps: u32,
    /// How often the power is cut again, inside the recovery from the cut before; 0 cuts no recovery.
    pub depth: u32,
}
