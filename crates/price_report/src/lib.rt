//! The lines of a transcript: what an ask shows, the discount factor of a curve at a day, which command is refused and
//! why, and which watcher was stopped. The line of a discount factor is built apart and appended whole; each other line is
//! written behind the output and taken back after want of memory. So after want of memory the output is as it was.
//! Offers `Namer`, `asked_line`, `df_line`, `refusal_line`, `over_line` and `cause_text`.
#![tactic(auto)]

mod asked;
mod cause;
mod curve;
mod df;
mod laws;
mod namer;
mod over;
mod refused;

pub use asked::asked_line;
pub use cause::cause_text;
pub use df::df_line;
pub use namer::Namer;
pub use over::over_line;
pub use refused::refusal_line;
