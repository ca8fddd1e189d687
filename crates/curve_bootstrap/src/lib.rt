//! Discount curves from the rates of their helpers, one node after the other (bootstrap). Each node is the least factor at which its
//! helper is worth at least 1.
//!
//! `build` and `BuildFault`; `build_by` with `CurvePlans`, which keeps coupons from one build to the next; `par_rate`, `ParRate`
//! and `HelperFault`. Functions whose names end in `law` do nothing: their contracts are what is proved of the definitions.
//!
//! ```text
//! let curve = build(alloc, owner, &terms, today, &rates)?;
//! let par = par_rate(alloc, &calendar, &curve, &helper)?;
//! ```
#![tactic(auto)]

mod building;
mod coupons;
mod excesses;
mod faults;
mod helpers;
mod laws;
mod nodes;
mod pars;
mod plans;
mod sums;

pub use building::{build, build_by};
pub(crate) use coupons::Coupon;
pub use faults::{BuildFault, HelperFault};
pub use laws::{excess_rises_law, fixed_curves_stay_law, nodes_are_least_law, trial_law};
pub use pars::{ParRate, par_rate};
pub use plans::CurvePlans;
