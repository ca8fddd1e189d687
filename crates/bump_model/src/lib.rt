//! What a quote's move changes of a price: a ladder of bumps, each a quote or quotes together that are moved by a size up and
//! down, as definitions over the states of a desk.
//!
//! `Ladder`, `LadderFault`, `Bump`, `Rung`, `RungList`, `Side`, `Missing`; `Quoted`, `moved`, `is_limit`. Of `proofs/`: what the code over a
//! desk rests on.
#![tactic(auto)]

mod ladder;
mod laws;
mod moves;
mod rows;

pub use ladder::{Bump, Ladder, LadderFault, Missing, Rung, RungList, Side};
pub use moves::{Quoted, is_limit, moved};
