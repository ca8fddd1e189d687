// Appends the subjects of a node to a worklist.
ghost use Rattle.std.specs.Prelude.{◌≡◌, ◌<◌, ◌≤◌, ℕ, length, true};
ghost use Rattle.walks.specs.Walk.{Among};
ghost use Rattle.edge_lists.specs.EdgesView.{IsPair, IsWhole};
ghost use Rattle.wave_queue.specs.Thread.{is_marked};
ghost use Rattle.observer_graph.specs.Puts.{Puts};
ghost use Rattle.observer_graph.specs.Turns.{reads_in};

use crate::beneath::has_edges;
use crate::node::Node;
use desk_names::ObjId;
use edge_lists::Edges;
use wave_queue::Wave;

/// Appends the unmarked subjects of a node, unless it is a watcher.
pub fn put_edges(edges: &Edges, nodes: &[Option<Node>], node: ObjId, wave: &mut Wave)
    requires whole { IsWhole edges.now }
    requires nodes { length nodes.now ≡ length edges.now.nodes }
    requires node { node < length nodes.now }
    requires room { length nodes.now ≤ length wave.old.marks }
    ensures puts { Puts wave.old wave.new (λ x. Among x (reads_in nodes.now edges.now node)) }
    ensures all { (x : ℕ) → Among x (reads_in nodes.now edges.now node) → is_marked wave.new.marks x ≡ true }
{
    if has_edges(&nodes[node.place()]) {
        put_subjects(edges, node, wave);
    }
}

// Appends the unmarked subjects of a node.
fn put_subjects(edges: &Edges, node: ObjId, wave: &mut Wave)
    requires node { node < length edges.now.nodes }
    requires within { (x : ℕ) → IsPair edges.now x node → x < length wave.old.marks }
    ensures puts { Puts wave.old wave.new (λ x. IsPair edges.now x node) }
    ensures all { (x : ℕ) → IsPair edges.now x node → is_marked wave.new.marks x ≡ true }
{
    let mut at = edges.first_subject(node);
    while let Some(edge) = at {
        let (subject, next) = edges.subject_and_next(edge);
        wave.push(subject);
        at = next;
    }
}
