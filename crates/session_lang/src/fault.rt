// Why a script is not read.
ghost use Rattle.std.specs.Prelude.{◌≡◌};

use session_commands::ScriptKind;
use std::alloc::{AllocError, AllocFailed};
use thiserror::Error;

/// Why a script is not read: its first fault, with the line from 1, or out of memory.
#[derive(Clone, Copy, Debug, Error, PartialEq, Eq)]
pub enum ScriptFault {
    #[error("line {line}: {kind}")]
    At { line: u32, kind: ScriptKind },
    #[error("out of memory")]
    NoMemory,
}

impl From<AllocError> for ScriptFault {
    ghost use Rattle.session_lang.specs.declared.fault.ScriptFault.TheVariants.{NoMemory};

    ghost from_gives = { λ _ e. e ≡ NoMemory };

    fn from(_e: AllocError) -> ScriptFault {
        ScriptFault::NoMemory
    }
}

impl<T: Drop> From<AllocFailed<T>> for ScriptFault {
    ghost use Rattle.session_lang.specs.declared.fault.ScriptFault.TheVariants.{NoMemory};

    ghost from_gives = { λ _ e. e ≡ NoMemory };

    fn from(_e: AllocFailed<T>) -> ScriptFault {
        ScriptFault::NoMemory
    }
}
