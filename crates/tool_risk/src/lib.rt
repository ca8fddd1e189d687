//! What `doqs risk` does: from words and a market with its tables to the rows of deltas, gammas and thetas and a status, for every shelf of
//! files, sink of bytes and bench of prices. And what these figures mean, as definitions over prices computed afresh: what the price of an
//! instrument does where quotes are moved by a size, the sum of single deltas, and what a parallel shift has beyond it.
//!
//! `run_risk`, `RiskStatus`; `Figure`, `Missing`, `delta`, `gamma`, `sum_at`, `cross`. Of `proofs/`: that these figures of a ladder's rung are
//! those of the prices.
#![tactic(auto)]

mod curves;
mod dues;
mod figure_rows;
mod figure_sums;
mod figures;
mod given;
mod laws;
mod lines;
mod names;
mod refusing;
mod rows;
mod running;
mod sums;
mod theta;
mod tomorrow;
mod words;

pub use bump_model::Missing;
pub use figure_sums::{cross, sum_at};
pub use figures::{Figure, delta, gamma};
pub use running::run_risk;
pub use tool_frame::{MarketStatus as RiskStatus, NamedStatus};
