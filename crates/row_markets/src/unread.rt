// What is wanting in a row.
use std::alloc::{AllocError, AllocFailed};
use thiserror::Error;

/// Why a table of markets cannot be read.
#[derive(Debug, Drop, Error)]
pub enum Unread {
    /// A field is wanting.
    #[error("a row on a curve cannot be read")]
    Row,
    /// The evaluation date is no day.
    #[error("no evaluation date")]
    Today,
    /// The fixing days are no count.
    #[error("no fixing days")]
    FixingDays,
    /// The reference day is no day.
    #[error("no reference day")]
    Reference,
    /// A node is no day with a factor.
    #[error("no node")]
    Node,
    /// The nodes' days do not rise from the reference day.
    #[error("nodes out of order")]
    Order,
    /// Memory is wanting.
    #[error("no memory")]
    NoMemory,
}

impl From<AllocError> for Unread {
    fn from(_: AllocError) -> Unread {
        Unread::NoMemory
    }
}

impl<T: Drop> From<AllocFailed<T>> for Unread {
    fn from(_: AllocFailed<T>) -> Unread {
        Unread::NoMemory
    }
}
