// Why terms are refused.
use thiserror::Error;

/// Why terms are beyond this project's limits. Parts are counted from 1.
#[derive(Clone, Copy, Debug, PartialEq, Eq, Error)]
pub enum LimitFault {
    /// The weight of the part is 0, or beyond 1,000,000 either way.
    #[error("the weight of part {0} is 0 or beyond 1,000,000")]
    Weight(u32),
    /// The member of the part is that of an earlier part.
    #[error("the member of part {0} stands in an earlier part")]
    Repeated(u32),
    /// An instrument has no flow.
    #[error("no flow")]
    NoFlow,
    /// An instrument has more than 1,602 flows.
    #[error("more than 1,602 flows")]
    TooManyFlows,
}
