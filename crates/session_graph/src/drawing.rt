// The graph of a session.
ghost use Rattle.std.specs.Prelude.{◌≡◌, ◌++◌, OnOk, OnErr};
ghost use Rattle.session_graph.specs.Graph.{session_graph};

use crate::edges::edges_of;
use crate::naming::names_of;
use crate::nodes::nodes_of;
use graph_dot::graph;
use price_report::Namer;
use session_rounds::WatchedSession;
use std::alloc::{AllocError, Global};
use watch_rounds::Picker;

/// Appends the graph of a session: its objects by creation, and the edges of each in their order. Nothing is computed, and
/// the session stays as it is. After want of memory `out` has its old bytes. It costs what the objects name, and for each
/// watcher a look at each number that was given.
pub fn session_graph<P: Picker>(
    alloc: Global,
    session: &mut WatchedSession<P>,
    out: &mut Vec<u8>,
) -> Result<(), AllocError>
    ensures graph { OnOk result (out.new.items ≡ out.old.items ++ session_graph session.old.standing) }
    ensures err { OnErr result (out.new.items ≡ out.old.items) }
    ensures same { session.new ≡ session.old }
{
    let nodes = nodes_of(alloc, &mut session.session)?;
    let edges = edges_of(alloc, session.session())?;
    let of_object = names_of(alloc, session.session())?;
    let namer = Namer {
        names: session.session().names(),
        of_object: &of_object,
    };
    graph(alloc, nodes.as_slice(), edges.as_slice(), &namer, out)
}
