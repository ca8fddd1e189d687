// Why a curve is not built.
ghost use Rattle.std.specs.Prelude.{◌≡◌};
ghost use Rattle.curve_bootstrap.specs.Built.{numbered};

use std::alloc::{AllocError, AllocFailed};
use thiserror::Error;

/// Why a helper has no node: the first of these that applies. `NoMemory` may come in place of each.
#[derive(Clone, Copy, PartialEq, Eq)]
pub enum HelperFault {
    /// A day is out of range.
    DateRange,
    /// Its end is not after the end of the helper before it, or, for the first, not after the reference day.
    Pillar,
    /// Its rate is beyond 10 (1,000 per cent) in size.
    RateRange,
    /// Its rate is so far below zero that its coupons outweigh the payment at the end.
    Negative,
    /// No factor from one unit to 4 fits it.
    Discount,
    /// Memory ran out.
    NoMemory,
}

/// Why a curve is not built. Helpers are counted from 1, and the first that is refused decides. `NoMemory` may come in place of
/// each, except where the reference day or the end of the first helper's tenor is out of range, and for a fault of a first deposit.
#[derive(Clone, Copy, Debug, PartialEq, Eq, Error)]
pub enum BuildFault {
    /// The helper's end is not after the end of the one before it, or, for the first, not after the reference day.
    #[error("the end of helper {0} is not after the one before it")]
    Pillar(u32),
    /// No discount factor from one unit to 4 fits the helper.
    #[error("no discount factor fits helper {0}")]
    Discount(u32),
    /// The helper's rate is so far below zero that its coupons outweigh the payment at the end.
    #[error("the negative rate of helper {0} outweighs its notional")]
    Negative(u32),
    /// A rate is beyond 10 (1,000 per cent) in size.
    #[error("a rate is beyond 10")]
    RateRange,
    /// A day is out of the range from 1901-01-01 to 2199-12-31.
    #[error("a day is out of range")]
    DateRange,
    /// Memory ran out.
    #[error("out of memory")]
    NoMemory,
}

/// Returns a helper's fault with the helper's number.
pub(crate) fn numbered(fault: HelperFault, k: u32) -> BuildFault
    ensures { result ≡ numbered k fault }
{
    match fault {
        HelperFault::DateRange => BuildFault::DateRange,
        HelperFault::Pillar => BuildFault::Pillar(k),
        HelperFault::RateRange => BuildFault::RateRange,
        HelperFault::Negative => BuildFault::Negative(k),
        HelperFault::Discount => BuildFault::Discount(k),
        HelperFault::NoMemory => BuildFault::NoMemory,
    }
}

impl From<AllocError> for BuildFault {
    ghost use Rattle.std.specs.Prelude.{◌≡◌};
    ghost use Rattle.curve_bootstrap.specs.declared.faults.BuildFault.TheVariants.{NoMemory};

    ghost from_gives = { λ _ e. e ≡ NoMemory };

    fn from(_: AllocError) -> BuildFault {
        BuildFault::NoMemory
    }
}

impl From<AllocError> for HelperFault {
    ghost use Rattle.std.specs.Prelude.{◌≡◌};
    ghost use Rattle.curve_bootstrap.specs.declared.faults.HelperFault.TheVariants.{NoMemory};

    ghost from_gives = { λ _ e. e ≡ NoMemory };

    fn from(_: AllocError) -> HelperFault {
        HelperFault::NoMemory
    }
}

impl<T: Drop> From<AllocFailed<T>> for HelperFault {
    ghost use Rattle.std.specs.Prelude.{◌≡◌};
    ghost use Rattle.curve_bootstrap.specs.declared.faults.HelperFault.TheVariants.{NoMemory};

    ghost from_gives = { λ _ e. e ≡ NoMemory };

    fn from(_: AllocFailed<T>) -> HelperFault {
        HelperFault::NoMemory
    }
}
