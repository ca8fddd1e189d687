//! The cash flows of bonds, swaps and forward rate agreements, and their amounts.
//!
//! `fixed_leg`, `float_leg`, `redemption` and `forward_flow` append flows to a list, or leave it as it was and return a `LegFault`.
//! `flows` returns the flows that are still to be paid as `Flow`s with their amounts, or a `FlowFault`. `amount_of` and `is_live`
//! do the same for one flow.
//!
//! ```text
//! fixed_leg(&schedule, &calendar, 0, notional, rate, Counter::Act360, &mut list)?;
//! redemption(&calendar, end, 0, notional, &mut list)?;
//! let due = flows(alloc, &terms, today, today, None, None, owner)?;
//! ```
#![tactic(auto)]

mod amounts;
mod days;
mod faults;
mod interests;
mod laws;
mod legs;
mod live_flows;
mod periods;
mod settlements;
mod singles;

pub use amounts::amount_of;
pub use faults::{FlowFault, LegFault};
pub use legs::{fixed_leg, float_leg};
pub use live_flows::{Flow, FlowList, flows, is_live};
pub(crate) use periods::{Coupon, Leg};
pub use singles::{forward_flow, redemption};
