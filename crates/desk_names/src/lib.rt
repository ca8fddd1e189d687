//! The names of a session, numbered in order of first use, and the numbers of objects and of actions.
//! A name is 1 to 32 ASCII letters, digits and `_`, and is kept once, so that a number says as much as its text.
//! Offers `ObjId`, `NameId`, `ActionId`, `NameList`, `is_name`, `Names`, `MOST_NAMES`, `NameFault` and `PathText`.
#![tactic(auto)]

mod ids;
mod name;
mod name_list;
mod names;
mod path_text;

pub use ids::{ActionId, ObjId};
pub use name::is_name;
pub use name_list::NameList;
pub use names::{MOST_NAMES, NameFault, NameId, Names};
pub use path_text::PathText;
