// Why a line was not taken.
use thiserror::Error;

/// Why a line was not taken. It is not counted.
#[derive(Clone, Copy, Debug, Error, PartialEq, Eq)]
pub enum SayFault {
    /// An earlier line ran out of memory in its round. Nothing has changed.
    #[error("stopped")]
    Stopped,
    /// 2^64 - 1 lines were taken before. Nothing has changed.
    #[error("too many lines")]
    TooManyLines,
    /// Memory ran out. If it did in a round, the session is stopped. Else it is as before, apart from a prefix of the line's new
    /// names.
    #[error("out of memory")]
    NoMemory,
}
