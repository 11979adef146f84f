//! What is told of a replay when it has ended.

ghost use Rattle.replay_model.specs.Endings.{StartIsToldLaw, ResumeIsToldLaw};

/// A report of a start that is its lawful yard's tells of the life, where it tells the write-backs that the memory counted.
pub fn start_told_law()
    ensures { StartIsToldLaw }
{}

/// So does a report of a resume, whose recovery made its share of them.
pub fn resume_told_law()
    ensures { ResumeIsToldLaw }
{}
