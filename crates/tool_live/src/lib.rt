//! What `doqs live` does: from words, a market with its tables, a script or none, and the lines of a feed to the transcript of the script and
//! the answers to the lines, and a status, for every shelf of files, feed and sink of bytes and bench of prices. Lines come in pieces of a
//! feed, each answered before more is waited for: how the feed cuts them is not seen in the answers. Who answers is an `Answerer`.
//!
//! `run_live`, `Status`; `answer_all`, `AnswerFault`; `Answerer`; `MOST_LINE`.
#![tactic(auto)]

mod answerer;
mod answering;
mod conversing;
mod hearing;
mod playing;
mod putting;
mod ready;
mod rows;
mod running;
mod talk;
mod wanted;
mod words;

pub use answerer::{Answerer, MOST_LINE};
pub use answering::{AnswerFault, answer_all};
pub use running::run_live;
pub use tool_script::Status;
