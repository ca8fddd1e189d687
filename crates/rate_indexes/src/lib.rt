//! The rate of an interest-rate index on a day: the stored one, or the forecast from a discount curve for the deposit
//! that the index stands for.
//!
//! `period`, `fixing`. Functions whose names end in `law` do nothing: their contracts are what is proved of the
//! definitions.
#![tactic(auto)]

mod fixings;
mod forecasts;
mod laws;
mod periods;

pub use fixings::fixing;
pub use laws::{causes_law, later_fixing_law, no_fixing_law, stored_fixing_law};
pub use periods::period;
