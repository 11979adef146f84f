//! Laws on flush lists, the contract of a function that does nothing.

ghost use Rattle.flush_list.specs.Laws.{FirstMarksLaw, MarkedLaw, OnceLaw, GivenLaw};

/// Each marked line is given once, in the order of the first marks.
pub fn flush_list_laws()
    ensures order { FirstMarksLaw }
    ensures marked { MarkedLaw }
    ensures once { OnceLaw }
    ensures given { GivenLaw }
{}
