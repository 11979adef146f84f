//! The world that a life opens with.
ghost use Rattle.yard_model.specs.Opens.{OpensLawfulLaw, ViewsOpenLaw};

/// A life opens with a lawful world, whether it starts or resumes.
pub fn opens_law()
    ensures { OpensLawfulLaw }
{}

/// The views that a life opens with, as one list.
pub fn views_open_law()
    ensures { ViewsOpenLaw }
{}
