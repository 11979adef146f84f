//! The states of a bank of cells. Each names an epoch.

/// Where a bank of cells stands.
#[derive(Clone, Copy, Debug, PartialEq, Eq)]
pub enum CellState {
    /// A power cut in this epoch left the cells, and they are not restored yet.
    Torn(u32),
    /// The cells may be written to in this epoch.
    Running(u32),
    /// The lines that were stored to in this epoch are being written back.
    Closing(u32),
    /// Nothing is pending; this epoch and those before are in memory.
    Saved(u32),
}

impl CellState {
    ghost use Rattle.std.specs.Prelude.{◌≡◌};
    ghost use Rattle.incll_var.specs.Cells.{closing_state, epoch_of};

    /// The epoch.
    pub fn epoch(self) -> u32
        ensures { result ≡ epoch_of self }
    {
        match self {
            CellState::Torn(epoch) => epoch,
            CellState::Running(epoch) => epoch,
            CellState::Closing(epoch) => epoch,
            CellState::Saved(epoch) => epoch,
        }
    }

    /// The state behind the begin of a closing, where so many lines were stored to.
    pub(crate) fn closing(self, count: u32) -> CellState
        ensures { result ≡ closing_state count self }
    {
        match self {
            CellState::Torn(epoch) => CellState::Torn(epoch),
            CellState::Running(epoch) => {
                if count == 0 {
                    CellState::Saved(epoch)
                } else {
                    CellState::Closing(epoch)
                }
            }
            CellState::Closing(epoch) => CellState::Closing(epoch),
            CellState::Saved(epoch) => CellState::Saved(epoch),
        }
    }
}
