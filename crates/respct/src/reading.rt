//! Reads the script of a call.

ghost use Rattle.std.specs.Prelude.{IfOk, IfErr};
ghost use Rattle.byte_ports.specs.Bytes.{TookSome};
ghost use Rattle.script_text.specs.Program.{program_of};
ghost use Rattle.respct.specs.Run.{HasRead};
ghost use Rattle.respct.specs.Steps.{IsUnread};

use byte_ports::{ReadRefusal, Source, read_all};
use script_text::{Script, ScriptFault, ScriptRefusal, parse};
use std::alloc::Global;

/// The greatest number of bytes that a script may have.
const SCRIPT_LIMIT: u64 = 8_388_608;

/// Why there is no script.
#[derive(Clone, Copy, Debug, PartialEq, Eq)]
pub enum NoScript {
    /// The source failed.
    Failed,
    /// The source has more bytes than a script may have.
    TooLong,
    /// The bytes are no text of a script: its first fault.
    Fault(ScriptFault),
    /// Memory ran out.
    OutOfMemory,
}

/// Reads the script to the end of the source.
pub fn read<S: Source>(alloc: Global, source: &mut S) -> Result<Script, NoScript>
    ensures script { IfOk result (λ script. HasRead (S.left source.old) (S.left source.new) (program_of script)) }
    ensures refused { IfErr result (IsUnread (S.left source.old) (S.left source.new) (S.count source.old) (S.count source.new)) }
    ensures took { TookSome (S.left source.old) (S.left source.new) }
{
    let text = match read_all(alloc, source, SCRIPT_LIMIT) {
        Ok(text) => text,
        Err(ReadRefusal::Failed) => return Err(NoScript::Failed),
        Err(ReadRefusal::TooLong) => return Err(NoScript::TooLong),
        Err(ReadRefusal::OutOfMemory) => return Err(NoScript::OutOfMemory),
    };
    match parse(alloc, text.as_slice()) {
        Ok(script) => Ok(script),
        Err(ScriptRefusal::Fault(fault)) => Err(NoScript::Fault(fault)),
        Err(ScriptRefusal::OutOfMemory) => Err(NoScript::OutOfMemory),
    }
}
