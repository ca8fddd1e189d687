//! Accrued interest of a fixed bond, its price at a yield, and its yield at a clean or a full price.
//!
//! `is_fixed`, `accrued`, `full_price`, `bond_yield`, `yield_at`, `YieldFault`, `MOST_YIELD`, `MOST_CLEAN`. None takes memory.
//! Functions whose names end in `law` do nothing: their contracts are what is proved of the definitions.
#![tactic(auto)]

mod accruals;
mod amounts;
mod bonds;
mod fixed;
mod laws;
mod prices;
mod yields;

pub use accruals::accrued;
pub use bonds::{YieldFault, bond_yield, yield_at};
pub use fixed::is_fixed;
pub use laws::{least_yield_law, price_falls_law};
pub use prices::full_price;
pub use yields::{MOST_CLEAN, MOST_YIELD};
