//! Which event comes next.

/// Which event comes next.
#[derive(Clone, Copy, Debug, PartialEq, Eq)]
pub enum Stage {
    /// The cells are open: the next event is the first store that is left, if one is.
    Open,
    /// In a checkpoint: the next event writes a cell back, and one is left to be.
    WritingBack,
    /// In a checkpoint: the next event fences the cells.
    WrittenBack,
    /// In a checkpoint or a recovery, the cells are in memory: the next event is the store of the next epoch.
    Fenced,
    /// The next event writes the next epoch back.
    EpochStored,
    /// The next event fences the next epoch, and opens the cells in it.
    EpochAsked,
    /// In a recovery: the next event is the cells' next one.
    Restoring,
}
