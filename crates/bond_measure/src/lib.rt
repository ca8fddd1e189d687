//! What a basis point does to the price of a fixed bond: its basis-point value, its duration and its convexity, from differences
//! of full prices.
//!
//! `bpv`, `duration`, `convexity`, `MeasureFault`. None takes memory.
#![tactic(auto)]

mod measures;
mod prices;
mod rows;

pub use measures::{MeasureFault, bpv, convexity, duration};
