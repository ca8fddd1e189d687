//! The walk of an ask: recomputes what an object uses and is out of date, with a stack of its own. A recalculation does the
//! same for the inputs of its object.
//!
//! `Books` with `ask`, `at_once` and `recalc`, and their results `AtOnce` and `Recalced`. Words of `specs/`: `Asks`, `Stops`,
//! `RecalcEnds`, `RecalcStops`. Programs use a `Desk` (lazy_objects).
//!
//! ```text
//! let asked = books.ask(&market, stock, &mut bench)?;
//! let again = books.at_once(stock);      // AtOnce::Answers(..)
//! ```
#![tactic(auto)]

mod asking;
mod reader;
mod recalced;
mod recalculating;
mod turning;
mod uses;

pub use asking::{AtOnce, Books};
pub use recalced::Recalced;
