//! The terms of a market's objects, copied: what the session of each scenario of a grid is made of.
//!
//! `copy_terms`; `copy_made`, of all objects with their names.
#![tactic(auto)]

mod copying;

pub use copying::{copy_made, copy_terms};
