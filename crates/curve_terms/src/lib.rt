//! The terms of a curve that is built from the rates of its helpers, and whether they are in range.
//!
//! `CurveTerms`, `CurveStart`, `Helper`, `HelperList`; `is_in_range`.
#![tactic(auto)]

mod ranges;
mod terms;

pub use ranges::is_in_range;
pub use terms::{CurveStart, CurveTerms, Helper, HelperList};
