// Why a plan has no schedule.
use std::alloc::{AllocError, AllocFailed};
use thiserror::Error;

/// Why a plan has no schedule. The first that holds, in this order, is the answer; want of memory may come instead of
/// the last three and of a schedule.
#[derive(Clone, Copy, Debug, PartialEq, Eq, Error)]
pub enum PlanFault {
    /// The start is not before the end.
    #[error("start is not before end")]
    Order,
    /// The rule steps by the tenor, and its count is not from 1 to the unit's limit.
    #[error("tenor out of its limits")]
    Tenor,
    /// A stub's day is given without steps, or is not strictly between start and end, or the first is after the last.
    #[error("stub out of place")]
    Stub,
    /// There are more than 801 days before they are adjusted.
    #[error("more than 801 days")]
    TooMany,
    /// A day has no business day to move to from 1901-01-01 to 2199-12-31.
    #[error("no such day from 1901-01-01 to 2199-12-31")]
    DateRange,
    /// The adjusted start is not before the adjusted end.
    #[error("adjusted start is not before adjusted end")]
    Collapsed,
    /// Memory is wanting.
    #[error("out of memory")]
    NoMemory,
}

impl From<AllocError> for PlanFault {
    ghost use Rattle.std.specs.Prelude.{◌≡◌};
    ghost use Rattle.schedule_rules.specs.declared.faults.PlanFault.TheVariants.{NoMemory};

    ghost from_gives = { λ _ e. e ≡ NoMemory };

    fn from(_: AllocError) -> PlanFault {
        PlanFault::NoMemory
    }
}

impl<T: Drop> From<AllocFailed<T>> for PlanFault {
    ghost use Rattle.std.specs.Prelude.{◌≡◌};
    ghost use Rattle.schedule_rules.specs.declared.faults.PlanFault.TheVariants.{NoMemory};

    ghost from_gives = { λ _ e. e ≡ NoMemory };

    fn from(_: AllocFailed<T>) -> PlanFault {
        PlanFault::NoMemory
    }
}
