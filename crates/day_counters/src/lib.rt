//! Year fractions between two days by QuantLib's day counters, as whole numbers of parts: Actual/360, Actual/365,
//! Actual/Actual (ISDA), 30/360 as Bond Basis and as the European rule count it, and Business/252.
//!
//! `fraction`.
#![tactic(auto)]

mod act_act;
mod counted;
mod laws;
mod thirty;

pub use counted::fraction;
