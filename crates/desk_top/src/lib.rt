//! The top call: from words, a market with its tables and a script to the bytes of the session's transcript, of a load's summary or of the
//! market's report, and a status, for every shelf of files, sink of bytes and bench of prices. What a plan says is done: a script's commands
//! over a session of its market, round by round, each round's lines written into a sink before the next begins; the summary of a load; the
//! report of a market.
//!
//! `run`, `Status` with `Section`, `MarketKind` and `FileRole`. Of `proofs/`: `halted_before`, by which a run that ended before
//! its first round wrote and computed nothing.
#![tactic(auto)]

mod carrying;
mod load_lines;
mod play;
mod report;
mod rows;
mod running;
mod summing;
mod tally;

pub use running::run;
pub use tool_script::{FileRole, MarketKind, Section, Status};
