// Graphs of live nodes over one source.
ghost use Rattle.std.specs.Prelude.{◌≡◌, ◌+◌, ◌<◌, ◌≤◌, ℕ, length, IfOk, OnOk};
ghost use Rattle.observer_graph.specs.GraphView.{IsLive, IsPair, IsWhole};
ghost use Rattle.graph_vectors.specs.Nets.{IsNet, AreLive};

use desk_names::ObjId;
use observer_graph::{Flags, Graph, Role};
use std::alloc::AllocError;

/// A lazy node whose value is current.
pub(crate) const CURRENT: Flags = Flags {
    current: true,
    frozen: false,
    forward: false,
};

/// A new lazy node that is current and observes these nodes, which may be one; its number.
pub(crate) fn lazy_over(graph: &mut Graph, first: u32, second: u32) -> Result<u32, AllocError>
    requires net { IsNet graph.old }
    requires room { length graph.old.nodes < 65_536 }
    requires first { first < length graph.old.nodes }
    requires second { second < length graph.old.nodes }
    ensures net { OnOk result (IsNet graph.new) }
    ensures len { OnOk result (length graph.new.nodes ≡ length graph.old.nodes + 1) }
    ensures number { IfOk result (λ node. node ≡ length graph.old.nodes) }
{
    let node = graph.add(Role::Lazy)?;
    watch_these(graph, ObjId(first), ObjId(second), node)?;
    graph.set_flags(node, CURRENT);
    Ok(node.0)
}

// A node that observes nothing observes these nodes, which may be one.
fn watch_these(
    graph: &mut Graph,
    first: ObjId,
    second: ObjId,
    node: ObjId,
) -> Result<(), AllocError>
    requires whole { IsWhole graph.old }
    requires first { IsLive graph.old first }
    requires second { IsLive graph.old second }
    requires node { IsLive graph.old node }
    requires new { (x : ℕ) → IsPair graph.old x node → ⊥ }
    ensures nodes { OnOk result (graph.new.nodes ≡ graph.old.nodes) }
    ensures whole { IsWhole graph.new }
{
    graph.watch(first, node)?;
    if second == first {
        return Ok(());
    }
    graph.watch(second, node)
}

/// How many of the first nodes are not current.
pub(crate) fn count_not_current(graph: &Graph, count: u32) -> u32
    requires live { AreLive graph.now }
    requires within { count ≤ length graph.now.nodes }
{
    let mut found = 0;
    for number in 0..count {
        if !graph.flags(ObjId(number)).current {
            found += 1;
        }
    }
    found
}
