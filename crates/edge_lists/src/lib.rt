//! Pairs of a subject and an observer. Each pair has one slot, which is in two doubly linked lists: the observers of its subject,
//! and the subjects of its observer. So a walk goes from pair to pair, and removing a node does not touch the pairs of others.
//!
//! `Edges`, `EdgeId`, `MOST_NODES`. Words of `specs/`: `EdgesView`, `IsPair`, `IsLive`, `AddsPair`, `TakesPair`, `TakesNode`,
//! `GivesAll`, `GoesOn`, `IsWhole`.
//!
//! ```text
//! let mut edges = Edges::new(alloc);
//! let (subject, observer) = (edges.add_node()?, edges.add_node()?);
//! edges.link(subject, observer)?;
//! let first = edges.first_observer(subject);
//! ```
#![tactic(auto)]

mod edge;
mod edges;
mod pairing;

pub use edge::EdgeId;
pub use edges::{Edges, MOST_NODES};
