// Searches a path between two nodes by a walk down from one and a walk up from the other, one edge of each in turn.
ghost use Rattle.std.specs.Prelude.{◌≡◌, ◌↔◌, ◌<◌, ◌≤◌, ℕ, [], true, false, length, IsTrue, IfSome, None, OnOk};
ghost use Rattle.edge_lists.specs.EdgesView.{IsWhole, subject_lists};
ghost use Rattle.observer_graph.specs.Walks.{Leads, edges_in};
ghost use Rattle.observer_graph.specs.Turns.{IsFree, IsMarkedBelow, HasSomeObserver, HasSomeSubject, Descends, Ascends, left_up};

use crate::beneath::has_edges;
use crate::node::Node;
use desk_names::ObjId;
use edge_lists::{EdgeId, Edges};
use std::alloc::AllocError;
use wave_queue::Wave;

/// Returns whether `from` is `to` or depends on it. Edges of watchers do not count. Fills two empty waves with the dependencies of
/// `from` and the dependents of `to`, until one of them is complete.
pub fn leads_by_turns(
    edges: &Edges,
    nodes: &[Option<Node>],
    from: ObjId,
    to: ObjId,
    down: &mut Wave,
    up: &mut Wave,
) -> bool
    requires whole { IsWhole edges.now }
    requires nodes { length nodes.now ≡ length edges.now.nodes }
    requires from { from < length nodes.now }
    requires to { to < length nodes.now }
    requires down { IsFree (length edges.now.nodes) down.old }
    requires up { IsFree (length edges.now.nodes) up.old }
    ensures answer { IsTrue result ↔ Leads (edges_in nodes.now (subject_lists edges.now)) from to }
    ensures down { length down.new.marks ≡ length down.old.marks }
    ensures up { length up.new.marks ≡ length up.old.marks }
{
    down.push(from);
    up.push(to);
    let mut beneath: Option<EdgeId> = None;
    let mut above: Option<EdgeId> = None;
    while step_up(edges, nodes, up, &mut above) {
        if !step_down(edges, nodes, down, &mut beneath) {
            return down.is_marked(to);
        }
    }
    up.is_marked(from)
}

/// Reserves room in two empty waves for so many nodes.
///
/// # Errors
///
/// `AllocError` where memory runs out.
pub fn make_room(down: &mut Wave, up: &mut Wave, nodes: usize) -> Result<(), AllocError>
    requires { nodes ≤ 65536 }
    ensures down { (n : ℕ) → IsFree n down.old → IsFree n down.new }
    ensures up { (n : ℕ) → IsFree n up.old → IsFree n up.new }
    ensures room_down { OnOk result ((n : ℕ) → IsFree n down.old → IsFree nodes down.new) }
    ensures room_up { OnOk result ((n : ℕ) → IsFree n up.old → IsFree nodes up.new) }
{
    down.grow(nodes as u32)?;
    up.grow(nodes as u32)
}

// Takes one step down: visits the subject of the next pair, or else the next waiting node. Returns whether there was a step.
fn step_down(
    edges: &Edges,
    nodes: &[Option<Node>],
    wave: &mut Wave,
    pair: &mut Option<EdgeId>,
) -> bool
    requires whole { IsWhole edges.now }
    requires nodes { length nodes.now ≡ length edges.now.nodes }
    requires there { IfSome pair.old (HasSomeObserver edges.now) }
    requires room { length nodes.now ≤ length wave.old.marks }
    requires marks { IsMarkedBelow (length nodes.now) wave.old }
    ensures there { IfSome pair.new (HasSomeObserver edges.now) }
    ensures room { length wave.new.marks ≡ length wave.old.marks }
    ensures marks { IsMarkedBelow (length nodes.now) wave.new }
    ensures down { (from : ℕ) → Descends nodes.now edges.now from wave.old pair.old
        → Descends nodes.now edges.now from wave.new pair.new }
    ensures end { result ≡ false → (wave.new.waiting ≡ []) × (pair.new ≡ None) }
{
    match *pair {
        Some(edge) => {
            let (subject, next) = edges.subject_and_next(edge);
            wave.push(subject);
            *pair = next;
            true
        }
        None => match wave.pop() {
            Some(node) => {
                if has_edges(&nodes[node.place()]) {
                    *pair = edges.first_subject(node);
                }
                true
            }
            None => false,
        },
    }
}

// Takes one step up: visits the observer of the next pair, unless it is a watcher, or else the next waiting node. Returns whether
// there was a step.
fn step_up(
    edges: &Edges,
    nodes: &[Option<Node>],
    wave: &mut Wave,
    pair: &mut Option<EdgeId>,
) -> bool
    requires whole { IsWhole edges.now }
    requires nodes { length nodes.now ≡ length edges.now.nodes }
    requires there { IfSome pair.old (HasSomeSubject edges.now) }
    requires room { length nodes.now ≤ length wave.old.marks }
    requires marks { IsMarkedBelow (length nodes.now) wave.old }
    ensures there { IfSome pair.new (HasSomeSubject edges.now) }
    ensures room { length wave.new.marks ≡ length wave.old.marks }
    ensures marks { IsMarkedBelow (length nodes.now) wave.new }
    ensures up { (to : ℕ) → Ascends nodes.now edges.now to wave.old pair.old
        → Ascends nodes.now edges.now to wave.new pair.new }
    ensures end { result ≡ false → (wave.new.waiting ≡ []) × (pair.new ≡ None) }
    ensures fewer { result ≡ true → left_up edges.now wave.new pair.new < left_up edges.now wave.old pair.old }
{
    match *pair {
        Some(edge) => {
            let (observer, next) = edges.observer_and_next(edge);
            if has_edges(&nodes[observer.place()]) {
                wave.push(observer);
            }
            *pair = next;
            true
        }
        None => match wave.pop() {
            Some(node) => {
                *pair = edges.first_observer(node);
                true
            }
            None => false,
        },
    }
}
