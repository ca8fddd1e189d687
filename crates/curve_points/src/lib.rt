//! Discount curves as nodes after a reference day: the discount factor at a day, the curve seen from a later day, and a
//! copy of a curve.
//!
//! `CurveValue`, `CurveNode`, `NodeList`, `are_rising`, `ONE`, `MOST`; `discount`, `PointFault`; `implied`,
//! `ImpliedFault`; `copy_curve`; `factor_beyond`, `factor_between`. Functions whose names end in `law` do nothing: their
//! contracts are what is proved of the definitions.
#![tactic(auto)]

mod copies;
mod curves;
mod laws;
mod node_lists;
mod points;
mod seen;
mod segments;

pub use copies::copy_curve;
pub use curves::{CurveNode, CurveValue, MOST, ONE, are_rising};
pub use laws::{between_nodes_law, implied_there_law, node_day_law, segment_law};
pub use node_lists::NodeList;
pub use points::{PointFault, discount, discount_near, factor_beyond, factor_beyond_near};
pub use seen::{ImpliedFault, implied};
pub use segments::factor_between;
