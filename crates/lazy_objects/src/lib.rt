//! The objects of a session: their terms, values and observers, and the lazy recomputation of a value that is asked for
//! (QuantLib's `LazyObject`).
//!
//! `Desk` owns them, `Marks` has the state of a value, `Recalced` the result of a recalculation. In clauses a desk is its
//! `State` (desk_model). A program with names and watchers uses a session (session_core, pricing_session) instead:
//!
//! ```text
//! let mut desk = Desk::new(alloc, today)?;
//! let quote = desk.add(Terms::Quote(Some(rate)))?;
//! let stock = desk.add(Terms::Stock { quote })?;
//! desk.set_quote(quote, Some(other));
//! let asked = desk.ask(stock, &mut bench)?;
//! ```
#![tactic(auto)]

mod changes;
mod desk;
mod links;
mod room;
mod weights;

pub use ask_walk::Recalced;
pub use desk::{Desk, Marks};
