//! The terms of stocks, composites and instruments by their flows, tested against this project's limits before an
//! object is made of them.
//!
//! `stock`, `composite`, `flows_terms`; `are_in_range`; `LimitFault`; `MOST_WEIGHT`. Functions whose names end in `law` do
//! nothing: their contracts are what is proved of the definitions.
#![tactic(auto)]

mod composites;
mod faults;
mod instruments;
mod laws;
mod marks;
mod ranges;

pub use composites::{MOST_WEIGHT, composite};
pub use faults::LimitFault;
pub use instruments::{flows_terms, stock};
pub use laws::composite_law;
pub use ranges::are_in_range;
