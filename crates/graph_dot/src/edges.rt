// The arrows.
ghost use Rattle.std.specs.Prelude.{◌≡◌, ◌++◌, OnOk};
ghost use Rattle.graph_dot.specs.Dot.{is_today, arrow_end, edge_text, edges_text};

use crate::node::GraphEdge;
use crate::texts::{ARROW, ARROW_END, DASHED_END, LIGHT_DASHED_END, LIGHT_END, NODE};
use desk_names::ObjId;
use price_report::Namer;
use std::alloc::AllocError;

// Appends the arrows.
pub(crate) fn push_edges(
    edges: &[GraphEdge],
    namer: &Namer<'_>,
    out: &mut Vec<u8>,
) -> Result<(), AllocError>
    ensures { OnOk result (out.new.items
        ≡ out.old.items ++ edges_text namer.now.names.now namer.now.of_object.now edges.now) }
{
    for edge in edges {
        push_edge(edge, namer, out)?;
    }
    Ok(())
}

// Appends an arrow.
#[tactic(auto, unfolding(crate::specs::Dot::edge_text))]
fn push_edge(edge: &GraphEdge, namer: &Namer<'_>, out: &mut Vec<u8>) -> Result<(), AllocError>
    ensures { OnOk result (out.new.items
        ≡ out.old.items ++ edge_text namer.now.names.now namer.now.of_object.now edge.now) }
{
    out.extend_from_slice(NODE)?;
    out.extend_from_slice(namer.object(edge.observer))?;
    out.extend_from_slice(ARROW)?;
    out.extend_from_slice(namer.object(edge.subject))?;
    out.extend_from_slice(arrow_end(edge.is_registration, is_today(edge.subject)))
}

// Whether an object is `today`.
fn is_today(object: ObjId) -> bool
    ensures { result ≡ is_today object }
{
    object == ObjId(0)
}

// What an arrow ends with.
fn arrow_end(is_registration: bool, to_today: bool) -> &'static [u8]
    ensures { result.now ≡ arrow_end is_registration to_today }
{
    match (is_registration, to_today) {
        (true, true) => LIGHT_DASHED_END,
        (true, false) => DASHED_END,
        (false, true) => LIGHT_END,
        (false, false) => ARROW_END,
    }
}
