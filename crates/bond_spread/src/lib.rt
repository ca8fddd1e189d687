//! The spread of a fixed bond over a curve: what a yield adds to the curve's discount factors where its price is met.
//!
//! `spread`, `SpreadFault`. It takes memory for a copy of the flows.
#![tactic(auto)]

mod rows;
mod spreads;

pub use spreads::{SpreadFault, spread};
