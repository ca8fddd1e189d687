//! Which target each relinkable holder has (QuantLib's `RelinkableHandle`), and that the holder observes it in a graph.
//! A holder is a node of the graph: a handle, or an instrument that names an engine.
//!
//! `Links`. Words of `specs/`: `target_at`, `IsHolder`, `Fits`, `Relinks`.
#![tactic(auto)]

mod links;
mod watching;

pub use links::Links;
