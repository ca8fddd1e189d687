//! The objects of a market: those of its tables, and the quotes and the fixings in the files beside it.
//!
//! `Board` has the objects so far, `read_quotes`, `read_objects` and `read_fixings` add to it, and `MadeList` is the result.
//!
//! ```text
//! let board = Board::start(alloc, Version::Two, calendars)?;
//! let board = read_quotes(alloc, board, quotes)?;
//! let board = read_objects(board, tables)?;
//! let (names, made) = read_fixings(alloc, board, fixings)?.into_parts();
//! ```
#![tactic(auto)]

mod board;
mod fixings;
mod making;
mod quotes;
mod reader;

pub use board::{Board, MadeList};
pub use fixings::read_fixings;
pub use quotes::read_quotes;
pub use reader::read_objects;
