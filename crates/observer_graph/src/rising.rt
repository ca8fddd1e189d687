// Rising lists of nodes. Both ends are quick: the first node is removed, and a node older than all others is inserted, without
// a search and without moving the others.
ghost use Rattle.std.specs.Prelude.{◌≡◌, ◌↔◌, ◌<◌, ◌≤◌, ℕ, [], ◌∷◌, true, length, IsTrue, OnOk};
ghost use Rattle.std.specs.VecDeque.{deque_len, deque_capacity};
ghost use Rattle.observer_graph.specs.Noticed.{IsRising, IsPlace, with_number, without, is_at};

use desk_names::ObjId;
use std::alloc::AllocError;
use std::collections::VecDeque;

/// Inserts a node in its place, unless it is there.
#[inline(never)]
pub fn put_in(nodes: &mut VecDeque<ObjId>, entry: ObjId)
    requires rising { IsRising nodes.old.items }
    requires room { length (with_number entry nodes.old.items) ≤ deque_capacity nodes.old }
    ensures items { nodes.new.items ≡ with_number entry nodes.old.items }
    ensures room { deque_capacity nodes.old ≤ deque_capacity nodes.new }
{
    if comes_first(nodes, entry) {
        nodes.push_front_reserved(entry);
        return;
    }
    let at = place_of(nodes, entry);
    if !is_at(nodes, at, entry) {
        match nodes.insert(at, entry) {
            Ok(()) => {}
            Err(_) => unreachable!(),
        }
    }
}

/// Removes a node, if it is there.
pub fn take_out(nodes: &mut VecDeque<ObjId>, node: ObjId)
    requires rising { IsRising nodes.old.items }
    ensures items { nodes.new.items ≡ without node nodes.old.items }
    ensures room { deque_capacity nodes.new ≡ deque_capacity nodes.old }
{
    let at = place_of(nodes, node);
    if is_at(nodes, at, node) {
        match nodes.remove(at) {
            Some(_) => {}
            None => unreachable!(),
        }
    }
}

// Returns whether a node is at a place.
fn is_at(nodes: &VecDeque<ObjId>, at: usize, node: ObjId) -> bool
    ensures { result ≡ is_at nodes.now.items at node }
{
    match nodes.get(at) {
        Some(entry) => *entry == node,
        None => false,
    }
}

// Returns whether all nodes of the list are younger than a node.
fn comes_first(nodes: &VecDeque<ObjId>, node: ObjId) -> bool
    ensures { result ≡ true → with_number node nodes.now.items ≡ node ∷ nodes.now.items }
{
    match nodes.get(0) {
        Some(first) => node.place() < first.place(),
        None => true,
    }
}

// Returns how many nodes of the list are older than a node.
fn place_of(nodes: &VecDeque<ObjId>, node: ObjId) -> usize
    requires { IsRising nodes.now.items }
    ensures { IsPlace nodes.now.items node result }
{
    let mut low: usize = 0;
    let mut high: usize = nodes.len();
    while low < high {
        let middle = low + (high - low) / 2;
        if nodes[middle].place() < node.place() {
            low = middle + 1;
        } else {
            high = middle;
        }
    }
    low
}

/// Reserves room for so many nodes.
///
/// # Errors
///
/// `AllocError` where memory runs out.
pub fn reserve_for(nodes: &mut VecDeque<ObjId>, room: usize) -> Result<(), AllocError>
    ensures items { nodes.new.items ≡ nodes.old.items }
    ensures more { deque_capacity nodes.old ≤ deque_capacity nodes.new }
    ensures room { OnOk result (room ≤ deque_capacity nodes.new) }
{
    nodes.reserve(room.saturating_sub(nodes.len()))
}
