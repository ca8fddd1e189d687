//! What an answer to the question says, from what the price of an object was computed: the objects that it lists and their
//! order, the workings of their values, and the text of it.
//!
//! Functions whose names end in `law` do nothing: their contracts are what is proved of the definitions.
#![tactic(auto)]

mod laws;
mod rows;

pub use laws::{asking_law, listing_law, sums_law, workings_law};
