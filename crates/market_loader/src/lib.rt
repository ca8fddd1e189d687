//! A market's file and the tables that it names, found on a shelf and read in their order: the market, or the first
//! failure.
//!
//! `load_market`, `LoadFault`, `MarketRole`; `load_file`, `FileFault`. Of `proofs/`: `reads_as`, by which a fault of another type says the same
//! of the shelf.
#![tactic(auto)]

mod faults;
mod file;
mod market;
mod texts;

pub use faults::{FileFault, LoadFault, MarketRole};
pub use file::load_file;
pub use market::load_market;
