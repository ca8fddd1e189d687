// Rows `target,changed`: where a holder is moved to, one row after another, and whether that is a change.
ghost use Rattle.std.specs.Prelude.{◌≡◌, ◌<◌, ℕ, None, Some, IfOk, IfSome, []};
ghost use Rattle.observer_graph.specs.GraphView.{IsLive};
ghost use Rattle.link_table.specs.Links.{link_at};
ghost use Rattle.graph_vectors.specs.Moves.{IsMovable};

use desk_names::ObjId;
use link_table::Links;
use observer_graph::{Graph, Role};
use std::alloc::{AllocError, Global};

// A row: the target, if there is one, and whether it is another than before.
#[derive(Drop)]
struct Move {
    target: Option<ObjId>,
    changed: bool,
}

// Whether each row agrees for a holder over two sources that begins unlinked, and is removed in the end. None where a
// line is no row, or where memory is wanting.
pub(crate) fn moves_agree(alloc: Global, rows: &str) -> Option<bool> {
    let mut graph = Graph::new(alloc);
    let mut links = Links::new(alloc);
    rows_agree(&mut links, &mut graph, rows)
}

// The same of links and a graph that are empty, and lent: who owns them lets them go at each exit.
fn rows_agree(links: &mut Links, graph: &mut Graph, rows: &str) -> Option<bool>
    requires graph { graph.old ≡ record { nodes = []; subjects = []; sources = []; noticed = []; spare = 0 } }
    requires links { (h : ℕ) → link_at links.old h ≡ None }
{
    let holder = start(links, graph).ok()?;
    let mut agree = true;
    for row in rows.lines() {
        agree = move_agrees(links, graph, holder, row)? && agree;
    }
    links.remove(holder);
    Some(agree)
}

// Two sources, and a holder that is not linked.
fn start(links: &mut Links, graph: &mut Graph) -> Result<ObjId, AllocError>
    requires graph { graph.old ≡ record { nodes = []; subjects = []; sources = []; noticed = []; spare = 0 } }
    requires links { (h : ℕ) → link_at links.old h ≡ None }
    ensures { IfOk result (λ holder. IsMovable links.new graph.new holder) }
{
    graph.add(Role::Source)?;
    graph.add(Role::Source)?;
    let holder = graph.add(Role::Forwarder)?;
    links.add(graph, holder)?;
    Ok(holder)
}

// Whether one move agrees, by what the holder then reaches too.
fn move_agrees(links: &mut Links, graph: &mut Graph, holder: ObjId, row: &str) -> Option<bool>
    requires { IsMovable links.old graph.old holder }
    ensures { IfSome result (λ _. IsMovable links.new graph.new holder) }
{
    let wanted = move_of(row)?;
    let changed = links.relink(graph, holder, wanted.target);
    let held = links.target(holder);
    let is_over_a = reaches_source(graph, holder, 0) == (held == Some(ObjId(0)));
    let is_over_b = reaches_source(graph, holder, 1) == (held == Some(ObjId(1)));
    Some(is_over_a && is_over_b && changed == wanted.changed && held == wanted.target)
}

// Whether the holder reaches a source.
fn reaches_source(graph: &mut Graph, holder: ObjId, source: u32) -> bool
    requires live { IsLive graph.old holder }
    requires source { IsLive graph.old source }
    ensures { graph.new ≡ graph.old }
{
    graph.reaches(holder, ObjId(source))
}

// The move of a row.
fn move_of(row: &str) -> Option<Move>
    ensures { IfSome result (λ wanted. (t : ℕ) → wanted.target ≡ Some t → t < 2) }
{
    let mut fields = row.split(',');
    let target = match fields.next()? {
        "a" => Some(ObjId(0)),
        "b" => Some(ObjId(1)),
        "none" => None,
        _ => return None,
    };
    let changed = fields.next()?.parse().ok()?;
    Some(Move { target, changed })
}
