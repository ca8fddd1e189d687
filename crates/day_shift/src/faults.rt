// Why there is no such day.
use thiserror::Error;

/// Why there is no such day.
#[derive(Clone, Copy, Debug, PartialEq, Eq, Error)]
pub enum ShiftFault {
    /// It would lie outside 1901-01-01 to 2199-12-31.
    #[error("no such day from 1901-01-01 to 2199-12-31")]
    DateRange,
}
