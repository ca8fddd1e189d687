//! The graph of observers of a session as it stands: a node for each live object, with what an ask would find of it, and an
//! edge from each to what it observes. Nothing is computed for it.
//! Offers `session_graph`, `subjects_of`.
#![tactic(auto)]

mod drawing;
mod edges;
mod finding;
mod flowing;
mod naming;
mod nodes;
mod rows;
mod shown;

pub use drawing::session_graph;
pub use edges::subjects_of;
