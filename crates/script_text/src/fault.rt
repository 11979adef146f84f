//! Why a text is no script: the first fault of a text by its line and kind, and the names of the kinds.
//! A fault is what reading from the front meets first; want of memory stands beside it.

ghost use Rattle.std.specs.Prelude.{◌≡◌};
ghost use Rattle.script_text.specs.Faults.{kind_text};

use std::alloc::{AllocError, AllocFailed};

/// The script is not carried out yet.
pub const NOT_BUILT: u32 = 0;
/// The first line is not the head.
pub const HEAD: u32 = 1;
/// A line of the settings has not its two words.
pub const SETTING: u32 = 2;
/// A word that stands for a number is none.
pub const NUMBER: u32 = 3;
/// A number is outside its limits.
pub const RANGE: u32 = 4;
/// The line of the turns fits none of its forms.
pub const TURNS: u32 = 5;
/// The line of what a cut keeps fits none of its forms.
pub const KEEP: u32 = 6;
/// A section begins or ends at a line at which it must not.
pub const THREAD: u32 = 7;
/// A line of a section fits no command.
pub const COMMAND: u32 = 8;
/// A command is one more than a thread may have.
pub const TOO_MANY: u32 = 9;
/// A further line is wanted, and the text has none.
pub const NO_END: u32 = 10;
/// Something follows the last line.
pub const AFTER: u32 = 11;

/// The name of a kind of fault, as it stands on standard error; `unknown` for a number that is no kind.
pub fn kind_name(kind: u32) -> &'static str
    ensures { result.now ≡ kind_text kind }
{
    match kind {
        NOT_BUILT => "not built",
        HEAD => "head",
        SETTING => "setting",
        NUMBER => "number",
        RANGE => "range",
        TURNS => "turns",
        KEEP => "keep",
        THREAD => "thread",
        COMMAND => "command",
        TOO_MANY => "too many",
        NO_END => "no end",
        AFTER => "after",
        _ => "unknown",
    }
}

/// The first fault of a text.
#[derive(Clone, Copy, Debug, PartialEq, Eq)]
pub struct ScriptFault {
    /// The number of the line, from 1; 0 where no line is told.
    pub line: u32,
    /// The kind, from 0 to 11; `kind_name` has its name.
    pub kind: u32,
}

/// Why there is no script.
#[derive(Clone, Copy, Debug, PartialEq, Eq)]
pub enum ScriptRefusal {
    /// The text is none of a script, and this is its first fault.
    Fault(ScriptFault),
    /// There is not enough memory for the script.
    OutOfMemory,
}

impl From<ScriptFault> for ScriptRefusal {
    ghost use Rattle.std.specs.Prelude.{◌≡◌};
    ghost use Rattle.script_text.specs.declared.fault.ScriptRefusal.TheVariants.{Fault};

    ghost from_gives = { λ fault refusal. refusal ≡ Fault fault };

    fn from(fault: ScriptFault) -> Self {
        ScriptRefusal::Fault(fault)
    }
}

impl From<AllocError> for ScriptRefusal {
    ghost use Rattle.std.specs.Prelude.{◌≡◌};
    ghost use Rattle.script_text.specs.declared.fault.ScriptRefusal.TheVariants.{OutOfMemory};

    ghost from_gives = { λ _ refusal. refusal ≡ OutOfMemory };

    fn from(_error: AllocError) -> Self {
        ScriptRefusal::OutOfMemory
    }
}

impl<T: Drop> From<AllocFailed<T>> for ScriptRefusal {
    ghost use Rattle.std.specs.Prelude.{◌≡◌};
    ghost use Rattle.script_text.specs.declared.fault.ScriptRefusal.TheVariants.{OutOfMemory};

    ghost from_gives = { λ _ refusal. refusal ≡ OutOfMemory };

    fn from(_failed: AllocFailed<T>) -> Self {
        ScriptRefusal::OutOfMemory
    }
}
