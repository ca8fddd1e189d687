//! What makes an index and the flows of an instrument, the rates that are stored for an index, and whether these are in
//! range.
//!
//! `IndexTerms`, `Fixings`, `FixFault`, `IndexUse`; `Period`, `FlowTerm`, `FlowTermList`, `FlowTerms`, `expired`,
//! `needs_forecast`. Functions whose names end in `law` do nothing: their contracts are what is proved of the
//! definitions.
#![tactic(auto)]

mod fixings;
mod flows;
mod indexes;
mod laws;
mod limits;
mod ranges;

pub use fixings::{FixFault, Fixings};
pub use flows::{FlowTerm, FlowTermList, FlowTerms, Period, expired, needs_forecast};
pub use indexes::{IndexTerms, IndexUse};
pub use laws::{added_fixing_law, stored_once_law};
pub use limits::{MOST_AMOUNT, MOST_FIXING_DAYS, MOST_FLOWS, MOST_NOTIONAL, MOST_PARTS, MOST_RATE};
