//! Year fractions as whole numbers of parts, 11,221,560 parts to the year, so that a day over 360, 365, 366 or 252 is a
//! whole number of parts and no fraction is ever rounded; with the names of the ways to count days.
//!
//! `YearParts`, `PARTS_IN_YEAR`, `Basis`, `of_days`, `add`; `Counter`.
#![tactic(auto)]

mod bases;
mod counters;
mod laws;
mod parts;

pub use bases::{Basis, of_days};
pub use counters::Counter;
pub use parts::{PARTS_IN_YEAR, YearParts, add};
