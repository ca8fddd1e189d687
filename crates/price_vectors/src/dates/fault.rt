// Why a line has no case.
use holiday_calendars::{BespokeFault, JointFault};
use std::alloc::{AllocError, AllocFailed};
use thiserror::Error;

/// Why a line has no case.
#[derive(Clone, Copy, Debug, PartialEq, Eq, Error)]
pub(crate) enum RowFault {
    /// A field is missing, is no word of its kind, or there is one too many.
    #[error("not a row of this file")]
    NotARow,
    /// Its bespoke calendar is refused.
    #[error("{0}")]
    Bespoke(BespokeFault),
    /// Its joint calendar is refused.
    #[error("{0}")]
    Joint(JointFault),
    /// Memory is wanting.
    #[error("out of memory")]
    NoMemory,
}

impl From<AllocError> for RowFault {
    fn from(_: AllocError) -> RowFault {
        RowFault::NoMemory
    }
}

impl<T: Drop> From<AllocFailed<T>> for RowFault {
    fn from(_: AllocFailed<T>) -> RowFault {
        RowFault::NoMemory
    }
}

impl From<BespokeFault> for RowFault {
    fn from(fault: BespokeFault) -> RowFault {
        RowFault::Bespoke(fault)
    }
}

impl From<JointFault> for RowFault {
    fn from(fault: JointFault) -> RowFault {
        RowFault::Joint(fault)
    }
}
