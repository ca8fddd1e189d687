// Why a job has no price.
use desk_terms::Cause;
use std::alloc::AllocError;
use thiserror::Error;

/// Why a job has no price.
#[derive(Clone, Copy, Debug, PartialEq, Eq, Error)]
pub enum PriceFault {
    /// The price is refused.
    #[error("the price is refused")]
    Refused(Cause),
    /// Memory is wanting.
    #[error("out of memory")]
    NoMemory,
}

impl From<AllocError> for PriceFault {
    ghost use Rattle.std.specs.Prelude.{◌≡◌};
    ghost use Rattle.discount_engines.specs.declared.faults.PriceFault.TheVariants.{NoMemory};

    ghost from_gives = { λ _ e. e ≡ NoMemory };

    fn from(_: AllocError) -> PriceFault {
        PriceFault::NoMemory
    }
}
