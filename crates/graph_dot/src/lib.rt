//! The graph of observers as text in the DOT language of Graphviz: a node for each object, with its name, its kind, its last
//! value and what an ask would find, and an arrow from each object to what it observes.
//! Offers `graph`, `GraphNode`, `FlowKind`, `Finding`, `Shown` and `GraphEdge`.
#![tactic(auto)]

mod drawing;
mod edges;
mod node;
mod nodes;
mod rows;
mod texts;
mod words;

pub use drawing::graph;
pub use node::{Finding, FlowKind, GraphEdge, GraphNode, Shown};
