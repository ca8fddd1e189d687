//! The data of a session's objects by number: their terms, their last values, their flags in the graph of observers, and the
//! memory of one ask.
//!
//! `Objects` has the terms and `Market` adds the evaluation date, `Store` has values and the graph, `Scratch` what one ask
//! remembers. Words of `specs/`: `market_in`, `state_in`, `objects_of`, `IsJoined`, `StoreView`, `ScratchView`. Programs use a
//! `Desk` (lazy_objects), which owns all of them:
//!
//! ```text
//! let observed = watched(alloc, &terms)?;
//! objects.add(terms, &mut store, &observed)?;
//! store.changed(quote);                       // notifies the observers
//! let (mark, is_current) = store.met(stock);
//! ```
#![tactic(auto)]

mod edges;
mod engines;
mod fixings;
mod market;
mod objects;
mod parts;
mod scratch;
mod store;

pub use edges::{TODAY, watched};
pub use engines::engine_of;
pub use fixings::index_of;
pub use market::Market;
pub use objects::Objects;
pub use parts::parts_of;
pub use scratch::Scratch;
pub use store::Store;
