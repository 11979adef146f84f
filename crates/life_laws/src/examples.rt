//! The definitions tried on lives that were worked out by hand.
//! Each is the contract of a function that does nothing.
ghost use Rattle.life_laws.specs.Examples.{LegalExamples, IllegalExamples, DrawExamples, EndExamples, StoreExamples, WorkExamples};

/// Lives that are legal.
pub fn legal_examples()
    ensures { LegalExamples }
{}

/// Lives that are not legal, one for each clause.
pub fn illegal_examples()
    ensures { IllegalExamples }
{}

/// How lives end, and how they do not.
pub fn end_examples()
    ensures { EndExamples }
{}

/// The stores of a put.
pub fn store_examples()
    ensures { StoreExamples }
{}

/// How much work is done.
pub fn work_examples()
    ensures { WorkExamples }
{}

/// Which entries may be drawn, and when all may be marked.
pub fn draw_examples()
    ensures { DrawExamples }
{}
