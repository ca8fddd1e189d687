// Adds a node that observes others, and finds the least user of a node.
ghost use Rattle.std.specs.Prelude.{◌≡◌, ◌⊎◌, ◌↔◌, ◌<◌, ◌≤◌, ◌+◌, ℕ, length, slice_index_or, None, IfOk, OnOk, OnErr};
ghost use Rattle.walks.specs.Walk.{Among, IsOnce};
ghost use Rattle.edge_lists.specs.EdgesView.{IsLive, IsPair, IsWhole, SameNodes, with_node};
ghost use Rattle.observer_graph.specs.GraphView.{IsWatcher};
ghost use Rattle.observer_graph.specs.Notice.{IsLeast};

use crate::lists::lesser;
use crate::node::{Node, is_watcher};
use desk_names::ObjId;
use edge_lists::Edges;
use std::alloc::AllocError;

/// Adds a node that observes these and returns its number.
///
/// # Errors
///
/// `AllocError` where memory runs out. Then the pairs are as before.
pub fn add_linked(edges: &mut Edges, named: &[ObjId]) -> Result<ObjId, AllocError>
    requires whole { IsWhole edges.old }
    requires room { length edges.old.nodes < 65536 }
    requires live { (x : ℕ) → Among x named.now → IsLive edges.old x }
    requires once { IsOnce named.now }
    requires few { length named.now ≤ 65536 }
    ensures number { IfOk result (λ node. node ≡ length edges.old.nodes) }
    ensures pairs { OnOk result ((x o : ℕ) → IsPair edges.new x o
        ↔ (IsPair edges.old x o ⊎ (Among x named.now × (o ≡ length edges.old.nodes)))) }
    ensures nodes { OnOk result (SameNodes (with_node edges.old) edges.new) }
    ensures spare { OnOk result (edges.new.spare ≡ edges.old.spare) }
    ensures err { OnErr result (edges.new ≡ edges.old) }
{
    let node = edges.add_node_and_spare(named.len())?;
    link_all(edges, node, named);
    Ok(node)
}

/// Returns the least observer of a node, watchers aside. The time is proportional to its observers.
pub fn least_user_of(edges: &Edges, node: ObjId, nodes: &[Option<Node>]) -> Option<ObjId>
    requires node { node < length edges.now.nodes }
    requires within { (o : ℕ) → IsPair edges.now node o → o < length nodes.now }
    ensures { IsLeast (λ o. IsPair edges.now node o × (IsWatcher (slice_index_or nodes.now o None) → ⊥)) result }
{
    let mut least: Option<ObjId> = None;
    let mut at = edges.first_observer(node);
    while let Some(edge) = at {
        let (observer, next) = edges.observer_and_next(edge);
        if !is_watcher(&nodes[observer.place()]) {
            least = Some(lesser(least, observer));
        }
        at = next;
    }
    least
}

// Makes a node without pairs observe these, in room that was reserved.
fn link_all(edges: &mut Edges, node: ObjId, named: &[ObjId])
    requires live { IsLive edges.old node }
    requires named { (x : ℕ) → Among x named.now → IsLive edges.old x }
    requires none { (x : ℕ) → IsPair edges.old x node → ⊥ }
    requires once { IsOnce named.now }
    requires room { length named.now ≤ edges.old.spare }
    ensures pairs { (x o : ℕ) → IsPair edges.new x o
        ↔ (IsPair edges.old x o ⊎ (Among x named.now × (o ≡ node))) }
    ensures nodes { SameNodes edges.old edges.new }
    ensures spare { edges.new.spare + length named.now ≡ edges.old.spare }
{
    for subject in named {
        edges.link_spare(*subject, node);
    }
}
