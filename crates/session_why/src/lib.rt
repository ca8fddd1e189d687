//! Explains the value of an object of a session: the line of an ask of it, and then a section for each object that it depends on, with
//! the numbers that its value is computed from.
//!
//! `why` is its one call.
//!
//! ```text
//! let text = why(alloc, &mut session, b"book", &mut bench)?;
//! ```
#![tactic(auto)]

mod answering;
mod asking;
mod curves;
mod flows;
mod lines;
mod listing;
mod objects;
mod priced;
mod products;
mod sums;
mod workings;

pub use answering::why;
