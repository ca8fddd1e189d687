//! A session that is spoken to line by line, as definitions: what a line does, what it writes and which computations it
//! makes, and that a log of such lines is a script.
//!
//! `MOST_LINE`. Words of `specs/`: `Live`, `meaning`, `said`, `spoken`, `conversation`, `LogsAreScripts`.
//! Functions without a body are laws: their contracts are what is proved of the definitions.
#![tactic(auto)]

mod laws;
mod limits;
mod rows;

pub use laws::{a_line_is_a_round_or_a_fault, a_log_is_a_script};
pub use limits::MOST_LINE;
