//! A session that takes lines, one at a time: each is read by the grammar of scripts over the names and actions so far, and
//! returns the lines of its round, or its fault.
//!
//! `Lines` has what was said to a session that its caller owns, `SayFault` is why a line was not taken, `texts_of` copies names.
//! Of `proofs/`: `begins_beside` and `stays_beside` say beside which sessions `Lines` stand. `LiveSession` of pricing_session
//! owns session, bench and lines.
//!
//! ```text
//! let mut lines = Lines::new(alloc, begun);
//! let mut words = lines.words();
//! lines.say(&mut session, b"set q 1.5", &mut words, &mut bench, &mut out)?;
//! ```
#![tactic(auto)]

mod answering;
mod blocks;
mod doing;
mod fault;
mod fault_line;
mod learning;
mod lines;
mod reader;
mod texts;

pub use fault::SayFault;
pub use lines::Lines;
pub use texts::texts_of;
