//! A desk of a market's objects: those that its files gave, made in their order; the names that they have, and the object
//! that a name stands for.
//!
//! `desk_of`, `NamedDesk`, `named_desk`, `object_named`, `Unnamed`, `unnamed_line`.
#![tactic(auto)]

mod making;
mod named;
mod naming;

pub use making::{NamedDesk, desk_of, named_desk};
pub use named::{Unnamed, object_named, unnamed_line};
