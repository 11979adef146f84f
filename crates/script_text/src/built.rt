//! The reader of the scripts that are carried out so far.
//! Which scripts these are is one definition, `AreScheduled`, and one function, `is_scheduled`.

ghost use Rattle.std.specs.Prelude.{◌≡◌, ◌↔◌, IfOk, IfErr, IsTrue};
ghost use Rattle.script_text.specs.declared.fault.ScriptFault.{ScriptFault};
ghost use Rattle.script_text.specs.Program.{Program, program_of, turns_of};
ghost use Rattle.script_text.specs.Faults.{Gives, fault};
ghost use Rattle.script_text.specs.Schedules.{AreScheduled};
ghost use Rattle.script_text.specs.Built.{IsBuiltText, IsRefusedFor, IsCauseOf};

use crate::fault::{NOT_BUILT, ScriptFault, ScriptRefusal};
use crate::mode::Mode;
use crate::script::Script;
use crate::whole::read_script;
use std::alloc::Global;

/// The script of a text, where the script's turns are those of a schedule.
///
/// A script whose threads run by themselves is refused as line 0 and kind 0, and every other text for its first fault.
pub fn parse(alloc: Global, text: &[u8]) -> Result<Script, ScriptRefusal>
    // What is read is the program whose text this is, and its turns are those of a schedule.
    ensures found { IfOk result (λ script. IsBuiltText text.now (program_of script)) }
    // The text of such a program gives that program, unless memory runs out.
    ensures only { (p : Program) → IsBuiltText text.now p → Gives program_of result (Ok p) }
    // Every other text is refused for its fault, unless memory runs out.
    ensures first { (f : ScriptFault) → IsRefusedFor text.now f → Gives program_of result (Err f) }
    // A text is refused for its fault alone.
    ensures why { IfErr result (λ refusal. IsCauseOf text.now refusal) }
{
    let script = read_script(alloc, text)?;
    if is_scheduled(&script.mode) {
        return Ok(script);
    }
    Err(not_built())
}

// The refusal of a script that is not carried out yet.
fn not_built() -> ScriptRefusal
    ensures { result ≡ ScriptRefusal.Fault (fault 0 0) }
{
    ScriptRefusal::Fault(ScriptFault {
        line: 0,
        kind: NOT_BUILT,
    })
}

// Whether the turns are those of a schedule.
fn is_scheduled(mode: &Mode) -> bool
    ensures { IsTrue result ↔ AreScheduled (turns_of mode.now) }
{
    !matches!(mode, Mode::Live(_))
}
