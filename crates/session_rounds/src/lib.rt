//! A session with watchers. Each command is a whole round: the command, its notifications, and the runs of all watchers that
//! become due.
//!
//! `WatchedSession`, over a picker that chooses which due watcher runs next.
//!
//! ```text
//! let mut session = WatchedSession::new(alloc, session, Order::First)?;
//! session.step(&Command::Set(name, rate), &mut bench, &mut lines)?;
//! ```
#![tactic(auto)]

mod acting;
mod changing;
mod growing;
mod session;

pub use session::WatchedSession;
