//! What the programs share that compare rows of a table with what the crates answer: the table of markets with their
//! curves, the words and whole numbers of a row, and how many rows agree.
//!
//! `Market` and `Markets`; `Tally`; `calendar_of`, `convention_of`, `counter_of`; `whole_factor`, `whole_rate`.
#![tactic(auto)]

mod markets;
mod numbers;
mod tallies;
mod unread;
mod words;

pub use markets::{Market, Markets};
pub use numbers::{whole_factor, whole_rate};
pub use tallies::Tally;
pub use unread::Unread;
pub use words::{calendar_of, convention_of, counter_of};
