//! A ladder of bumps over a desk: an instrument is priced, the quotes of each bump are moved up and down and the instrument priced again, and
//! they are set back. A price computes what the move's notice reached, and no more. The lines of a ladder: what an instrument is worth, what
//! it gains on each rung, and how many computations that took. And what the program `desk_bump` does, from words and a market with its tables
//! to these lines and a status, for every shelf of files, sink of bytes and bench of prices.
//!
//! `ladder`; `curve_at`, `curve_given`, what a curve is worth; `quotes_of`, `quotes_beneath`, `each`; of bump_model `Bump`, `Ladder`,
//! `LadderFault`, `Rung`, `RungList`, `Side`, `Missing`. `push_missing` and `MONEY_PLACES`, for other texts of ladders. `run_bump`, `NAME`,
//! `BumpStatus`.
#![tactic(auto)]

mod asking;
mod bumps;
mod curves;
mod lines;
mod pricing;
mod quotes;
mod report;
mod report_rows;
mod rows;
mod rungs;
mod running;
mod sides;

pub use asking::ladder;
pub use bump_model::{Bump, Ladder, LadderFault, Missing, Rung, RungList, Side};
pub use curves::{curve_at, curve_given};
pub use quotes::{each, quotes_beneath, quotes_of};
pub use report::{MONEY_PLACES, push_missing};
pub use running::run_bump;
pub use tool_frame::MarketStatus as BumpStatus;

/// The name of the program whose run is `run_bump`.
pub const NAME: &str = "desk_bump";

/// How far quotes are moved: 0.0001, a basis point, in units of a rate.
pub(crate) const BUMP: i64 = 100_000;
