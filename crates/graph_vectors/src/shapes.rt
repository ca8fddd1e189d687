// Rows `shape,size,told`: how many lazy nodes a notice reaches from the source beneath them all.
ghost use Rattle.std.specs.Prelude.{◌≡◌, ◌+◌, ◌*◌, ◌<◌, ◌≤◌, length, IfOk, OnOk, []};
ghost use Rattle.graph_vectors.specs.Nets.{IsNet};

use crate::nets::{count_not_current, lazy_over};
use desk_names::ObjId;
use observer_graph::{Graph, Role};
use std::alloc::AllocError;

/// How many steps a shape has at most.
const MOST_STEPS: u32 = 10_000;

// How the nodes of a graph lie over its source.
#[derive(Clone, Copy)]
enum Shape {
    // each node over the one before
    Chain,
    // each node over the source
    Fan,
    // two nodes over the one before, and one over both
    Ladder,
}

// Whether the row's count is that of an empty graph with its shape, in which the top reaches the source and not the other way.
// None where it is no row, or where memory is wanting.
pub(crate) fn shape_agrees(graph: &mut Graph, row: &str) -> Option<bool>
    requires { graph.old ≡ record { nodes = []; subjects = []; sources = []; noticed = []; spare = 0 } }
{
    let mut fields = row.split(',');
    let shape = shape_of(fields.next()?)?;
    let steps = fields.next()?.parse().ok()?;
    let told: u32 = fields.next()?.parse().ok()?;
    if steps > MOST_STEPS {
        return None;
    }
    is_told(graph, shape, steps, told)
}

// The same of a shape that was read.
fn is_told(graph: &mut Graph, shape: Shape, steps: u32, told: u32) -> Option<bool>
    requires graph { graph.old ≡ record { nodes = []; subjects = []; sources = []; noticed = []; spare = 0 } }
    requires steps { steps ≤ MOST_STEPS }
{
    graph.add(Role::Source).ok()?;
    let top = build(graph, shape, steps).ok()?;
    graph.mark_source(ObjId(0));
    graph.tell();
    let found = count_not_current(graph, top + 1);
    let is_over = graph.reaches(ObjId(top), ObjId(0)) && !graph.reaches(ObjId(0), ObjId(top));
    Some(is_over && found == told.saturating_add(1))
}

fn shape_of(name: &str) -> Option<Shape> {
    match name {
        "chain" => Some(Shape::Chain),
        "fan" => Some(Shape::Fan),
        "ladder" => Some(Shape::Ladder),
        _ => None,
    }
}

// So many steps of a shape over the source; the last node.
fn build(graph: &mut Graph, shape: Shape, steps: u32) -> Result<u32, AllocError>
    requires net { IsNet graph.old }
    requires len { length graph.old.nodes ≡ 1 }
    requires steps { steps ≤ MOST_STEPS }
    ensures net { OnOk result (IsNet graph.new) }
    ensures top { IfOk result (λ top. top < length graph.new.nodes) }
    ensures room { OnOk result (length graph.new.nodes ≤ 65_536) }
{
    let mut top = 0;
    for _done in 0..steps {
        top = step(graph, shape, top)?;
    }
    Ok(top)
}

// One step more; the last node.
fn step(graph: &mut Graph, shape: Shape, top: u32) -> Result<u32, AllocError>
    requires net { IsNet graph.old }
    requires top { top < length graph.old.nodes }
    requires room { length graph.old.nodes + 3 ≤ 65_536 }
    ensures net { OnOk result (IsNet graph.new) }
    ensures top { IfOk result (λ top. top < length graph.new.nodes) }
    ensures len { OnOk result (length graph.new.nodes ≤ length graph.old.nodes + 3) }
{
    match shape {
        Shape::Chain => lazy_over(graph, top, top),
        Shape::Fan => lazy_over(graph, 0, 0),
        Shape::Ladder => {
            let left = lazy_over(graph, top, top)?;
            let right = lazy_over(graph, top, top)?;
            lazy_over(graph, left, right)
        }
    }
}
