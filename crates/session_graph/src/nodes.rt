// The nodes of the graph.
ghost use Rattle.std.specs.Prelude.{◌≡◌, ◌<◌, ◌++◌, length, IfOk, OnOk};
ghost use Rattle.desk_model.specs.Market.{kind_at};
ghost use Rattle.session_graph.specs.Graph.{node_by, nodes_in};

use crate::finding::finding_of;
use crate::flowing::flows_at;
use crate::shown::shown_of;
use desk_names::ObjId;
use graph_dot::GraphNode;
use session_core::Session;
use std::alloc::{AllocError, Global};

// A node for each live object, by creation.
pub(crate) fn nodes_of(alloc: Global, session: &mut Session) -> Result<Vec<GraphNode>, AllocError>
    ensures nodes { IfOk result (λ nodes. nodes.items ≡ nodes_in session.old) }
    ensures same { session.new ≡ session.old }
{
    let mut nodes = Vec::new(alloc);
    for number in 0..session.numbers() {
        push_node(session, ObjId(number), &mut nodes)?;
    }
    Ok(nodes)
}

// Appends the node of an object, if it is live.
#[tactic(auto, unfolding(desk_model::specs::State::is_source))]
fn push_node(
    session: &mut Session,
    object: ObjId,
    nodes: &mut Vec<GraphNode>,
) -> Result<(), AllocError>
    requires { object < length session.old.of_object }
    ensures node { OnOk result (nodes.new.items ≡ nodes.old.items
        ++ node_by session.old object (kind_at session.old.state.market object)) }
    ensures same { session.new ≡ session.old }
{
    let Some(kind) = session.desk().kind(object) else {
        return Ok(());
    };
    let held = session.ask_held(session.name_of(object));
    let desk = session.desk();
    nodes.push(GraphNode {
        object,
        kind,
        flows: flows_at(desk, object),
        shown: shown_of(desk, object, kind),
        finding: finding_of(kind, held),
        is_deferred: desk.marks(object).source,
    })?;
    Ok(())
}
