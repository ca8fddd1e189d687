// Adds and removes pairs.
ghost use Rattle.std.specs.Prelude.{◌≡◌, ◌≢◌, ◌⊎◌, ◌↔◌, ◌+◌, ◌≤◌, ◌^◌, ℕ, None, IsSome, IsTrue, MatchOption, OnOk, is_some, if◌then◌else◌};
ghost use Rattle.slab.specs.Slab.{ContainsKey, HasRoomFor, slab_len};
ghost use Rattle.edge_lists.specs.declared.edge.Side.TheVariants.{Subject};
ghost use Rattle.edge_lists.specs.Ends.{first_of, heads_at};
ghost use Rattle.edge_lists.specs.Stands.{Stands, IsEdge, IsPairIn};
ghost use Rattle.edge_lists.specs.Walks.{end_node};

use crate::edge::{Edge, EdgeId, End, Heads, Side, first_at, link_in, link_out};
use desk_names::ObjId;
use slab::Slab;
use std::alloc::AllocError;

/// How many slots the numbers of pairs can tell apart.
const MOST_SLOTS: usize = 4_294_967_296;

/// Puts a pair into a free slot.
pub(crate) fn put_in(
    slots: &mut Slab<Edge>,
    nodes: &mut [Option<Heads>],
    subject: ObjId,
    observer: ObjId,
)
    requires stands { Stands slots.old nodes.old }
    requires room { HasRoomFor slots.old 1 }
    requires subject { IsSome (heads_at nodes.old subject) }
    requires observer { IsSome (heads_at nodes.old observer) }
    requires new { IsPairIn slots.old.slots subject observer → ⊥ }
    ensures stands { Stands slots.new nodes.new }
    ensures pairs { (x o : ℕ) → IsPairIn slots.new.slots x o
        ↔ (IsPairIn slots.old.slots x o ⊎ ((x ≡ subject) × (o ≡ observer))) }
    ensures live { (x : ℕ) → is_some (heads_at nodes.new x) ≡ is_some (heads_at nodes.old x) }
    ensures len { slab_len slots.new ≡ slab_len slots.old + 1 }
    ensures capacity { slots.new.capacity ≡ slots.old.capacity }
{
    let pair = Edge {
        subject: End {
            node: subject,
            before: None,
            after: first_at(nodes, Side::Subject, subject),
        },
        observer: End {
            node: observer,
            before: None,
            after: first_at(nodes, Side::Observer, observer),
        },
    };
    let edge = EdgeId(slots.insert_reserved(pair) as u32);
    link_in(slots, nodes, Side::Subject, edge, subject);
    link_in(slots, nodes, Side::Observer, edge, observer);
}

/// Removes the pair of a slot.
pub(crate) fn take_out(slots: &mut Slab<Edge>, nodes: &mut [Option<Heads>], edge: EdgeId)
    requires stands { Stands slots.old nodes.old }
    requires held { ContainsKey slots.old edge }
    ensures stands { Stands slots.new nodes.new }
    ensures pairs { (x o : ℕ) → IsPairIn slots.new.slots x o
        ↔ (IsPairIn slots.old.slots x o × (IsEdge slots.old.slots edge x o → ⊥)) }
    ensures live { (x : ℕ) → is_some (heads_at nodes.new x) ≡ is_some (heads_at nodes.old x) }
    ensures len { slab_len slots.new + 1 ≡ slab_len slots.old }
    ensures capacity { slots.new.capacity ≡ slots.old.capacity }
{
    link_out(slots, nodes, Side::Subject, edge);
    link_out(slots, nodes, Side::Observer, edge);
    slots.remove(edge.key());
}

/// Reserves room for so many pairs and half as many again, so that calls that need one more pair each time copy the slots seldom.
/// The slots are copied before they grow, so that nothing has changed where memory runs out, or where there are no more numbers
/// of pairs.
pub(crate) fn make_room(slots: &mut Slab<Edge>, pairs: usize) -> Result<(), AllocError>
    requires { slots.old.capacity ≤ 2 ^ 32 }
    ensures room { OnOk result (HasRoomFor slots.new pairs) }
    ensures slots { slots.new.slots ≡ slots.old.slots }
    ensures capacity { slots.old.capacity ≤ slots.new.capacity }
    ensures small { slots.new.capacity ≤ 2 ^ 32 }
{
    if slots.capacity() - slots.len() >= pairs {
        return Ok(());
    }
    let mut larger = slots.clone()?;
    larger.reserve(pairs.saturating_add(pairs / 2))?;
    if larger.capacity() > MOST_SLOTS {
        return Err(AllocError);
    }
    *slots = larger;
    Ok(())
}

/// Returns the slot of a pair, if it exists. Looks through the subjects of the observer and the observers of the subject in turn,
/// as long as both have more.
pub(crate) fn find(
    slots: &Slab<Edge>,
    nodes: &[Option<Heads>],
    subject: ObjId,
    observer: ObjId,
) -> Option<EdgeId>
    requires stands { Stands slots.now nodes.now }
    requires observer { IsSome (heads_at nodes.now observer) }
    ensures { MatchOption result (IsPairIn slots.now.slots subject observer → ⊥)
        (λ edge. IsEdge slots.now.slots edge subject observer) }
{
    let mut above = first_of_any(nodes, subject);
    let mut at = first_at(nodes, Side::Observer, observer);
    while let Some(edge) = at {
        let pair = slots[edge.key()];
        if pair.subject.node == subject {
            return Some(edge);
        }
        at = pair.observer.after;
        let Some(other) = above else {
            return None;
        };
        let pair = slots[other.key()];
        if pair.observer.node == observer {
            return Some(other);
        }
        above = pair.subject.after;
    }
    None
}

// Returns the first pair of which a node is the subject. `None` if no node has the number.
fn first_of_any(nodes: &[Option<Heads>], subject: ObjId) -> Option<EdgeId>
    ensures { result ≡ first_of Subject (heads_at nodes.now subject) }
{
    match nodes.get(subject.place()) {
        Some(Some(heads)) => heads.first(Side::Subject),
        Some(None) => None,
        None => None,
    }
}

/// Removes a pair and returns whether it existed.
pub(crate) fn take_pair(
    slots: &mut Slab<Edge>,
    nodes: &mut [Option<Heads>],
    subject: ObjId,
    observer: ObjId,
) -> bool
    requires stands { Stands slots.old nodes.old }
    requires observer { IsSome (heads_at nodes.old observer) }
    ensures stands { Stands slots.new nodes.new }
    ensures was { IsTrue result ↔ IsPairIn slots.old.slots subject observer }
    ensures pairs { (x o : ℕ) → IsPairIn slots.new.slots x o
        ↔ (IsPairIn slots.old.slots x o × ((x ≡ subject) × (o ≡ observer) → ⊥)) }
    ensures live { (x : ℕ) → is_some (heads_at nodes.new x) ≡ is_some (heads_at nodes.old x) }
    ensures len { slab_len slots.new + (if result then 1 else 0) ≡ slab_len slots.old }
    ensures capacity { slots.new.capacity ≡ slots.old.capacity }
{
    match find(slots, nodes, subject, observer) {
        Some(edge) => {
            take_out(slots, nodes, edge);
            true
        }
        None => false,
    }
}

/// Removes every pair in which a node is at this side.
pub(crate) fn take_all(slots: &mut Slab<Edge>, nodes: &mut [Option<Heads>], side: Side, node: ObjId)
    requires stands { Stands slots.old nodes.old }
    requires live { IsSome (heads_at nodes.old node) }
    ensures stands { Stands slots.new nodes.new }
    ensures pairs { (x o : ℕ) → IsPairIn slots.new.slots x o
        ↔ (IsPairIn slots.old.slots x o × (end_node side x o ≢ node)) }
    ensures live { (x : ℕ) → is_some (heads_at nodes.new x) ≡ is_some (heads_at nodes.old x) }
    ensures len { slab_len slots.new ≤ slab_len slots.old }
    ensures capacity { slots.new.capacity ≡ slots.old.capacity }
{
    while let Some(edge) = first_at(nodes, side, node) {
        take_out(slots, nodes, edge);
    }
}

/// Removes a node with all its pairs.
pub(crate) fn take_node(slots: &mut Slab<Edge>, nodes: &mut [Option<Heads>], node: ObjId)
    requires stands { Stands slots.old nodes.old }
    requires live { IsSome (heads_at nodes.old node) }
    ensures stands { Stands slots.new nodes.new }
    ensures gone { heads_at nodes.new node ≡ None }
    ensures others { (x : ℕ) → (x ≡ node → ⊥) → is_some (heads_at nodes.new x) ≡ is_some (heads_at nodes.old x) }
    ensures pairs { (x o : ℕ) → IsPairIn slots.new.slots x o
        ↔ (IsPairIn slots.old.slots x o × ((x ≡ node) ⊎ (o ≡ node) → ⊥)) }
    ensures len { slab_len slots.new ≤ slab_len slots.old }
    ensures capacity { slots.new.capacity ≡ slots.old.capacity }
{
    take_all(slots, nodes, Side::Subject, node);
    take_all(slots, nodes, Side::Observer, node);
    nodes[node.place()] = None;
}
