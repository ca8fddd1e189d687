//! A session of a market's objects: those that its files gave, made in their order, each under its own name; and the same with
//! its watchers, ready for the commands of a script.
//!
//! `session_of`; `watched_session`, `begun`. Of `proofs/`: `ready_more`, by which a market stays ready when its script names more;
//! `starts_running`, `starts_known` and others, by which the session goes on and knows the commands of its script.
#![tactic(auto)]

mod making;
mod starting;

pub use making::session_of;
pub use starting::{begun, watched_session};
