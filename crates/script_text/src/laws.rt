//! Laws of the texts, each the contract of a function that does nothing.
//! Whoever needs the law calls the function.

ghost use Rattle.std.specs.Prelude.{◌≡◌};
ghost use Rattle.script_text.specs.Program.{Program};
ghost use Rattle.script_text.specs.Text.{HasText, text_of};
ghost use Rattle.script_text.specs.Built.{RefusalLaw};
ghost use Rattle.script_text.specs.ReportReading.{ReportTextLaw};

/// One text is the text of one program.
pub fn one_program()
    ensures { (p q : Program) → HasText p → HasText q → text_of p ≡ text_of q → p ≡ q }
{}

/// A text is that of a script which is carried out, or it is refused for one fault.
pub fn one_refusal()
    ensures { RefusalLaw }
{}

/// Reading and writing reports are inverse, and no text is that of two reports.
pub fn report_text_law()
    ensures { ReportTextLaw }
{}
