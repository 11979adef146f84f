//! How far the write of the next epoch has come. Who writes it, a closing or a recovery, keeps its own list of what comes
//! when; this is what they say of the super room.

ghost use Rattle.epoch_word.specs.Stages.{StoreLaw, WriteBackLaw, FenceLaw, SurvivingLaw};

/// How far the write of the next epoch has come.
#[derive(Clone, Copy, Debug, PartialEq, Eq)]
pub enum EpochStage {
    /// Nothing is pending. Behind a write that is in memory the next one is at this stage again, one epoch further.
    Before,
    /// The store of the next epoch is pending.
    Stored,
    /// The store was asked for by a write-back.
    AskedFor,
    /// The next epoch is in memory.
    InMemory,
}

/// Each of the three events leads from one stage to the next, and what a cut leaves at each stage: the epoch before the
/// store is pending, the epoch or the next while it is, and the next once it is in memory.
pub fn stage_laws()
    ensures stored { StoreLaw }
    ensures asked { WriteBackLaw }
    ensures fenced { FenceLaw }
    ensures survives { SurvivingLaw }
{}
