// The graph.
ghost use Rattle.std.specs.Prelude.{◌≡◌, ◌++◌, OnOk, OnErr, IfOk};
ghost use Rattle.graph_dot.specs.Dot.{graph_text};

use crate::edges::push_edges;
use crate::node::{GraphEdge, GraphNode};
use crate::nodes::push_nodes;
use crate::texts::{FOOT, HEAD};
use price_report::Namer;
use std::alloc::{AllocError, Global};

/// Appends the graph of these nodes and edges, in their orders, with a legend of its signs. An object is named as `namer` says. After want of memory
/// `out` has its old bytes.
pub fn graph(
    alloc: Global,
    nodes: &[GraphNode],
    edges: &[GraphEdge],
    namer: &Namer<'_>,
    out: &mut Vec<u8>,
) -> Result<(), AllocError>
    ensures ok { OnOk result (out.new.items
        ≡ out.old.items ++ graph_text namer.now.names.now namer.now.of_object.now nodes.now edges.now) }
    ensures err { OnErr result (out.new.items ≡ out.old.items) }
{
    let text = graph_of(alloc, nodes, edges, namer)?;
    out.extend_from_slice(text.as_slice())
}

// The graph in a vector of its own.
#[tactic(auto, unfolding(crate::specs::Dot::graph_text))]
fn graph_of(
    alloc: Global,
    nodes: &[GraphNode],
    edges: &[GraphEdge],
    namer: &Namer<'_>,
) -> Result<Vec<u8>, AllocError>
    ensures { IfOk result (λ text. text.items ≡ graph_text namer.now.names.now namer.now.of_object.now nodes.now edges.now) }
{
    let mut text = Vec::new(alloc);
    text.extend_from_slice(HEAD)?;
    push_nodes(alloc, nodes, namer, &mut text)?;
    push_edges(edges, namer, &mut text)?;
    text.extend_from_slice(FOOT)?;
    Ok(text)
}
