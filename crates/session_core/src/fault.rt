// Why no object is made, and no action added.
use session_commands::Refusal;
use std::alloc::AllocError;
use thiserror::Error;

/// Why a session makes no object.
#[derive(Clone, Copy, Debug, Error, PartialEq, Eq)]
pub enum MakeFault {
    /// `Taken`: a live object has the name. `TooMany`: there is no room.
    #[error("refused")]
    Refused(Refusal),
    #[error("out of memory")]
    NoMemory,
}

/// Why a session adds no action.
#[derive(Clone, Copy, Debug, Error, PartialEq, Eq)]
pub enum ActionFault {
    /// It has `MOST_ACTIONS` actions.
    #[error("too many actions")]
    Full,
    #[error("out of memory")]
    NoMemory,
}

impl From<AllocError> for ActionFault {
    ghost use Rattle.std.specs.Prelude.{◌≡◌};
    ghost use Rattle.session_core.specs.declared.fault.ActionFault.TheVariants.{NoMemory};

    ghost from_gives = { λ _ e. e ≡ NoMemory };

    fn from(_: AllocError) -> Self {
        ActionFault::NoMemory
    }
}

impl From<Refusal> for MakeFault {
    ghost use Rattle.std.specs.Prelude.{◌≡◌};
    ghost use Rattle.session_core.specs.declared.fault.MakeFault.TheVariants.{Refused};

    ghost from_gives = { λ refusal e. e ≡ Refused refusal };

    fn from(refusal: Refusal) -> Self {
        MakeFault::Refused(refusal)
    }
}

impl From<AllocError> for MakeFault {
    ghost use Rattle.std.specs.Prelude.{◌≡◌};
    ghost use Rattle.session_core.specs.declared.fault.MakeFault.TheVariants.{NoMemory};

    ghost from_gives = { λ _ e. e ≡ NoMemory };

    fn from(_: AllocError) -> Self {
        MakeFault::NoMemory
    }
}
