// Why no flow is appended, and why flows have no amounts.
use desk_terms::Cause;
use std::alloc::AllocError;
use thiserror::Error;

/// Why no flow is appended.
#[derive(Clone, Copy, Debug, PartialEq, Eq, Error)]
pub enum LegFault {
    /// A payment day or fixing day would be outside 1901-01-01 to 2199-12-31.
    #[error("a day is out of range")]
    DateRange,
    /// Memory ran out.
    #[error("out of memory")]
    NoMemory,
}

impl From<AllocError> for LegFault {
    ghost use Rattle.std.specs.Prelude.{◌≡◌};
    ghost use Rattle.cash_flow_legs.specs.declared.faults.LegFault.TheVariants.{NoMemory};

    ghost from_gives = { λ _ e. e ≡ NoMemory };

    fn from(_: AllocError) -> LegFault {
        LegFault::NoMemory
    }
}

/// Why flows have no amounts.
#[derive(Clone, Copy, Debug, PartialEq, Eq, Error)]
pub enum FlowFault {
    /// A flow is refused: the cause of the first.
    #[error("a flow is refused")]
    Refused(Cause),
    /// Memory ran out.
    #[error("out of memory")]
    NoMemory,
}

impl From<Cause> for FlowFault {
    ghost use Rattle.std.specs.Prelude.{◌≡◌};
    ghost use Rattle.cash_flow_legs.specs.declared.faults.FlowFault.TheVariants.{Refused};

    ghost from_gives = { λ cause e. e ≡ Refused cause };

    fn from(cause: Cause) -> FlowFault {
        FlowFault::Refused(cause)
    }
}

impl From<AllocError> for FlowFault {
    ghost use Rattle.std.specs.Prelude.{◌≡◌};
    ghost use Rattle.cash_flow_legs.specs.declared.faults.FlowFault.TheVariants.{NoMemory};

    ghost from_gives = { λ _ e. e ≡ NoMemory };

    fn from(_: AllocError) -> FlowFault {
        FlowFault::NoMemory
    }
}
