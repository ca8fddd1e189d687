//! What `doqs curve` does: from words and a market with its tables to the picture of curves, or to the table of
//! their points, or to the lines of what stands against it, and a status, for every shelf of files, sinks of bytes and of notes,
//! and bench of prices.
//!
//! `run_curve`, `CurveStatus`, `CurveWords`.
#![tactic(auto)]

mod finding;
mod lines;
mod plotting;
mod pricing;
mod quoted;
mod rows;
mod running;
mod status;
mod words;

pub use running::run_curve;
pub use status::{CurveStatus, CurveWords};
