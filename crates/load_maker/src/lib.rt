//! The texts of a large session that a number gives: a chain of composites over as many stocks and quotes, and a script
//! that moves a quote and asks for the end of the chain, as many times (this project's profile).
//!
//! `load_texts`, `Texts`, `ByteList`. Words of `specs/`: `market_text`, `quotes_text`, `script_text`, `texts_of`.
#![tactic(auto)]

mod byte_list;
mod market;
mod quotes;
mod rows;
mod script;
mod texts;

pub use byte_list::ByteList;
pub use rows::texts_are_worked_through;
pub use texts::{Texts, load_texts};
