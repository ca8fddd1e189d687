//! Market files, read to the evaluation date and the terms of a session's objects: the market itself, which is TOML, and
//! the tables of quotes and of fixings beside it, which are CSV. The first fault, by its section, its entry and its
//! kind, is the answer.
//!
//! `market_paths`, `Paths`; `read_market`, `Market`, `MadeList`; `MarketFault`, `Section`, `MarketKind`. `first_fault_law`
//! does nothing: its contract is what is proved of the definitions.
#![tactic(auto)]

mod document;
mod fault;
mod laws;
mod paths;
mod read;
mod top;

pub use fault::{MarketFault, Section};
pub use laws::first_fault_law;
pub use market_objects::MadeList;
pub use market_tables::MarketKind;
pub use paths::{Paths, market_paths};
pub use read::{Market, read_market};
