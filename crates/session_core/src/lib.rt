//! A session with names: which object a name stands for, what a command resolves to, and what it changes, writes and computes.
//! Each command is one turn of the definition (session_model).
//!
//! `Session`, `MakeFault`, `ActionFault` and `MOST_ACTIONS`. A function without a body is a law: its contract is what is proved.
//! A session here runs no watcher. Programs use `WatchedSession` (session_rounds) or `PricingSession` (pricing_session).
//!
//! ```text
//! let mut session = Session::new(alloc, names, today, actions)?;
//! session.act(&Command::Quote(name, Some(rate)), &mut bench, &mut lines)?;
//! ```
#![tactic(auto)]

mod acting;
mod adding;
mod fault;
mod growing;
mod laws;
mod pricing;
mod resolving;
mod session;
mod values;

pub use fault::{ActionFault, MakeFault};
pub use growing::MOST_ACTIONS;
pub use laws::asks_leave_stored;
pub use session::Session;
