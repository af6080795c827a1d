//! Why bytes are not a script.

ghost use Rattle.std.specs.Prelude.{◌≡◌};
ghost use Rattle.session_script.specs.declared.script_fault.ScriptFault.TheVariants.{NoMemory};

use std::alloc::{AllocError, AllocFailed};

/// Why bytes are not a script: too many lines, or else the first line that breaks a rule, with the
/// first rule that it breaks. Lines count from 1, and skipped lines count too.
#[derive(Clone, Copy, PartialEq, Eq)]
pub enum ScriptFault {
    /// There are more than 10,000 lines.
    TooManyLines,
    /// The line does not have the form of a step.
    BadLine(u32),
    /// The line uses a cursor that is not open.
    UnknownCursor(u32),
    /// The line opens a cursor that is already open.
    CursorExists(u32),
    /// The line opens a cursor when 64 are open.
    TooManyOpen(u32),
    /// Memory was refused.
    NoMemory,
}

impl From<AllocError> for ScriptFault {
    ghost from_gives = { λ _ e. e ≡ NoMemory };

    fn from(_e: AllocError) -> ScriptFault {
        ScriptFault::NoMemory
    }
}

impl<T: Drop> From<AllocFailed<T>> for ScriptFault {
    ghost from_gives = { λ _ e. e ≡ NoMemory };

    fn from(_e: AllocFailed<T>) -> ScriptFault {
        ScriptFault::NoMemory
    }
}
