// Walks down to the frozen nodes and marked sources that a node depends on.
ghost use Rattle.std.specs.Prelude.{◌≡◌, ◌↔◌, ◌<◌, ◌≤◌, ◌+◌, ◌^◌, ℕ, List, [], length, Some, true, IsTrue, if◌then◌else◌};
ghost use Rattle.walks.specs.Walk.{Among};
ghost use Rattle.edge_lists.specs.EdgesView.{IsWhole, subject_lists};
ghost use Rattle.wave_queue.specs.Thread.{is_marked};
ghost use Rattle.observer_graph.specs.Notice.{IsLeast, lesser};
ghost use Rattle.observer_graph.specs.Late.{IsClear, IsLateOf, frozen_of, is_held_back};
ghost use Rattle.observer_graph.specs.GraphView.{edges_as};
ghost use Rattle.observer_graph.specs.Puts.{Puts};
ghost use Rattle.observer_graph.specs.Turns.{IsFree, goes_beneath, reads_in};
ghost use Rattle.observer_graph.specs.Walks.{graph_of};

use crate::lists::lesser;
use crate::node::{Node, Role};
use crate::node_set::NodeSet;
use crate::put::put_edges;
use desk_names::ObjId;
use edge_lists::Edges;
use wave_queue::Wave;

/// Returns the least marked source that is the node or that it depends on, on a path whose inner nodes are not frozen. Edges of
/// watchers do not count. Fills the free wave with the dependencies, each of which is visited once.
pub fn least_beneath(
    edges: &Edges,
    nodes: &[Option<Node>],
    sources: &NodeSet,
    from: ObjId,
    wave: &mut Wave,
) -> Option<ObjId>
    requires whole { IsWhole edges.now }
    requires nodes { length nodes.now ≡ length edges.now.nodes }
    requires sources { length sources.now.marks ≡ length nodes.now }
    requires from { from < length nodes.now }
    requires wave { IsFree (length edges.now.nodes) wave.old }
    ensures least { IsLeast (IsLateOf (graph_of nodes.now (subject_lists edges.now) sources.now.marks) from) result }
    ensures room { length wave.new.marks ≡ length wave.old.marks }
{
    wave.push(from);
    let mut least: Option<ObjId> = None;
    while let Some(node) = wave.pop() {
        least = least_with(least, sources, node);
        go_down(edges, nodes, from, node, wave);
    }
    least
}

/// Returns whether neither the node nor any node that it depends on is frozen or a marked source. Edges of watchers do not count.
/// Fills the free wave with the dependencies, up to the first such node.
pub fn is_clear(
    edges: &Edges,
    nodes: &[Option<Node>],
    sources: &NodeSet,
    from: ObjId,
    wave: &mut Wave,
) -> bool
    requires whole { IsWhole edges.now }
    requires nodes { length nodes.now ≡ length edges.now.nodes }
    requires sources { length sources.now.marks ≡ length nodes.now }
    requires from { from < length nodes.now }
    requires wave { IsFree (length edges.now.nodes) wave.old }
    ensures clear { IsTrue result ↔ IsClear (graph_of nodes.now (subject_lists edges.now) sources.now.marks) from }
    ensures room { length wave.new.marks ≡ length wave.old.marks }
{
    wave.push(from);
    while let Some(node) = wave.pop() {
        if is_held_back(nodes, sources, node) {
            return false;
        }
        put_edges(edges, nodes, node, wave);
    }
    true
}

// Returns the lesser of the least source so far and a node, if the node is a source.
fn least_with(least: Option<ObjId>, sources: &NodeSet, node: ObjId) -> Option<ObjId>
    requires { node < length sources.now.marks }
    ensures { result ≡ (if is_marked sources.now.marks node then Some (lesser least node) else least) }
{
    if sources.contains(node) {
        Some(lesser(least, node))
    } else {
        least
    }
}

// Appends the unmarked subjects of a node, if the walk goes on below it.
fn go_down(edges: &Edges, nodes: &[Option<Node>], from: ObjId, node: ObjId, wave: &mut Wave)
    requires whole { IsWhole edges.now }
    requires nodes { length nodes.now ≡ length edges.now.nodes }
    requires node { node < length nodes.now }
    requires room { length nodes.now ≤ length wave.old.marks }
    ensures puts { Puts wave.old wave.new (λ x. (goes_beneath nodes.now from node ≡ true)
        × Among x (reads_in nodes.now edges.now node)) }
    ensures all { goes_beneath nodes.now from node ≡ true → (x : ℕ) → Among x (reads_in nodes.now edges.now node)
        → is_marked wave.new.marks x ≡ true }
{
    if goes_beneath(nodes, from, node) {
        put_edges(edges, nodes, node, wave);
    }
}

// Returns whether the walk goes on below a node: it begins there, or the node is not frozen.
fn goes_beneath(nodes: &[Option<Node>], from: ObjId, node: ObjId) -> bool
    requires { node < length nodes.now }
    ensures { result ≡ goes_beneath nodes.now from node }
{
    node == from || !is_frozen(&nodes[node.place()])
}

/// Returns whether the pairs in which a node observes are edges.
pub fn has_edges(node: &Option<Node>) -> bool
    ensures { (subjects : List ℕ) → edges_as node.now subjects ≡ (if result then subjects else []) }
{
    match node {
        None => false,
        Some(live) => match live.role {
            Role::Source => true,
            Role::Forwarder => true,
            Role::Lazy => true,
            Role::Watcher => false,
        },
    }
}

/// Returns whether a node is frozen.
pub fn is_frozen(node: &Option<Node>) -> bool
    ensures { result ≡ frozen_of node.now }
{
    match node {
        None => false,
        Some(live) => live.flags.frozen,
    }
}

// Returns whether a node is frozen or a source.
fn is_held_back(nodes: &[Option<Node>], sources: &NodeSet, node: ObjId) -> bool
    requires within { node < length nodes.now }
    requires sources { length sources.now.marks ≡ length nodes.now }
    ensures { result ≡ is_held_back (graph_of nodes.now [] sources.now.marks) node }
{
    is_frozen(&nodes[node.place()]) || sources.contains(node)
}

/// Returns the count of frozen nodes after one of them changed.
pub fn recounted(count: usize, was: bool, is: bool) -> usize
    requires some { was ≡ true → 0 < count }
    requires room { count ≤ 2 ^ 16 }
    ensures { result + (if was then 1 else 0) ≡ count + (if is then 1 else 0) }
{
    let others = if was { count - 1 } else { count };
    if is { others + 1 } else { others }
}
