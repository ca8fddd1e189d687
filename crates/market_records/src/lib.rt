//! The records of the tables beside a market file, taken one by one from the text, so that no table of them is kept.
//!
//! `TakesRecords`, `take_records`; `field`. `first_record_law` does nothing: its contract is what is proved of the
//! definitions.
#![tactic(auto)]

mod laws;
mod records;
mod row;

pub use laws::first_record_law;
pub use records::{TakesRecords, take_records};
pub use row::field;
