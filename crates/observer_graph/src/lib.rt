//! The graph of observers: who observes whom, and which nodes a notification reaches (QuantLib's `Observable` and `LazyObject`).
//! Nodes are numbered from 0 in order of creation. There is at most one pair of a subject and an observer.
//!
//! `Graph`, with `Role` and `Flags` of a node and its `Standing`. Words of `specs/`: `GraphView`, `IsPair`, `IsTold`, `Reaches`,
//! `IsLateOf`, `IsClear`.
//!
//! ```text
//! let mut graph = Graph::new(alloc);
//! let quote = graph.add(Role::Source)?;
//! let stock = graph.add_watching(Role::Lazy, &[quote])?;
//! graph.settle(stock);
//! graph.mark_source(quote);
//! graph.tell();                          // now graph.is_current(stock) is false
//! ```
#![tactic(auto)]

mod beneath;
mod by_turns;
mod graph;
mod lists;
mod node;
mod node_set;
mod pairs;
mod put;
mod rising;
mod walk;

pub use graph::Graph;
pub use node::{Flags, Role, Standing};
