//! Bonds, swaps and forward rate agreements of a market file: the flows that the keys of their tables make.
//!
//! `bond`, `swap`, `forward_agreement`; `limit_fault`.
#![tactic(auto)]

mod appended;
mod bonds;
mod forwards;
mod limits;
mod schedules;
mod swaps;

pub use bonds::bond;
pub use forwards::forward_agreement;
pub use limits::limit_fault;
pub use swaps::swap;
