//! What `doqs why` does: from words, a market with its tables and a script to the answer from what the price of
//! an object was computed, over the session as it stands behind the last command, and a status, for every shelf of files,
//! sink of bytes and bench of prices.
//!
//! `run_why`, `Status`, `NamedStatus`.
#![tactic(auto)]

mod answering;
mod rows;
mod running;
mod words;

pub use running::run_why;
pub use tool_frame::NamedStatus;
pub use tool_script::Status;
