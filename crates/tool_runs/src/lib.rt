//! What `doqs graph` and `doqs explain` do, for every shelf of files, sink of bytes and bench of prices: from words, a market with its tables
//! and a script to a text and a status. `graph` draws the session as it stands behind the last command; `explain` takes a script of steps,
//! does them one after the other in one session, and writes what each gains over the last step before it that showed money.
//!
//! `run_graph`, `run_explain`; `Status`. Functions without a body are laws: their contracts are what is proved of the definitions of
//! steps.
#![tactic(auto)]

mod drawing;
mod explain_laws;
mod explain_lines;
mod explain_rows;
mod explain_running;
mod explain_steps;
mod gains;
mod graph_rows;
mod graph_running;
mod graph_words;
mod told;

pub use explain_laws::{fronts_stand_alone, gains_add_up, steps_are_priced_afresh};
pub use explain_running::run_explain;
pub use graph_running::run_graph;
pub use tool_script::Status;
