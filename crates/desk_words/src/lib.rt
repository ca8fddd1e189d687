//! The words of the command line that the program takes, and what they ask for.
//! A scan decides whether the words are one of the lists that are taken; `clap` then finds the parts of a run.
//! Offers `read_words`, `Request` and `WordsFault`; of single words `is_path`, `order_of` and `joined_order`, for tools whose
//! lists are others.
#![tactic(auto)]

mod order;
mod run_command;
mod words;

pub use order::{joined_order, order_of};
pub use words::{Request, WordsFault, is_path, read_words};
