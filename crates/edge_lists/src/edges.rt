// The pairs of subjects and observers.
ghost use Rattle.std.specs.Prelude.{◌≡◌, ◌<◌, ◌≤◌, ◌+◌, ℕ, length, IsTrue, IfOk, OnOk, OnErr, ◌↔◌, true, is_some, max, slice_index_or, slice_set, if◌then◌else◌};
ghost use Rattle.edge_lists.specs.declared.edge.Side.TheVariants.{Subject, Observer};
ghost use Rattle.edge_lists.specs.Ends.{heads_at};
ghost use Rattle.edge_lists.specs.Stands.{IsEdge};
ghost use Rattle.edge_lists.specs.Walks.{GivesAll, GoesOn};
ghost use Rattle.edge_lists.specs.EdgesView.{IsLive, IsPair, IsWhole, IsThere, AddsPair, TakesPair, TakesNode, HasSubject, HasObserver, no_pairs, with_node, pair_count};

use crate::edge::{Edge, EdgeId, Heads, Side, first_at};
use crate::pairing::{find, make_room, put_in, take_node, take_pair};
use desk_names::ObjId;
use slab::Slab;
use std::alloc::{AllocError, Global};
use std::marker::Model;

/// The greatest count of node numbers.
pub const MOST_NODES: usize = 65_536;

/// Pairs of a subject and an observer, each once, over live nodes, with spare places for more. Nodes are numbered from 0 in order
/// of creation, and no number is given twice. Clauses see an `EdgesView`.
pub struct Edges {
    slots: Slab<Edge>,
    nodes: Vec<Option<Heads>>,
    // For each node a number that none of its observers exceeds.
    newest: Vec<u32>,
    // For how many pairs there is room that only `link_spare` may take.
    spare: usize,
}

// Each exit of an owner calls this once.
impl Drop for Edges {
    fn drop(self) {
        let Edges {
            slots: _,
            nodes: _,
            newest: _,
            spare: _,
        } = self;
    }
}

impl Model for Edges {
    ghost use Rattle.std.specs.Prelude.{◌≡◌, ◌+◌, ◌≤◌, length};
    ghost use Rattle.slab.specs.Slab.{slab_len};
    ghost use Rattle.edge_lists.specs.EdgesView.{EdgesView};
    ghost use Rattle.edge_lists.specs.Stands.{Stands, AreWithin};

    ghost Value = { EdgesView };

    ghost view = { λ e. record {
      slots = e.slots.slots;
      nodes = e.nodes.items;
      spare = e.spare;
    } };

    ghost invariant = { λ e. Stands e.slots e.nodes.items × (length e.nodes.items ≤ 65536)
        × (slab_len e.slots + e.spare ≤ e.slots.capacity)
        × (length e.newest.items ≡ length e.nodes.items) × AreWithin e.slots.slots e.newest.items };
}

impl Edges {
    /// Starts without nodes and pairs. Later calls allocate from this allocator.
    pub fn new(alloc: Global) -> Edges
        ensures { result ≡ no_pairs }
    {
        Edges {
            slots: Slab::new(alloc),
            nodes: Vec::new(alloc),
            newest: Vec::new(alloc),
            spare: 0,
        }
    }

    /// Adds a node without pairs and returns its number.
    ///
    /// # Errors
    ///
    /// `AllocError` where memory runs out. Then nothing has changed.
    pub fn add_node(&mut self) -> Result<ObjId, AllocError>
        requires { length self.old.nodes < MOST_NODES }
        ensures number { IfOk result (λ node. node ≡ length self.old.nodes) }
        ensures ok { OnOk result (self.new ≡ with_node self.old) }
        ensures err { OnErr result (self.new ≡ self.old) }
    {
        let node = ObjId(self.nodes.len() as u32);
        self.newest.reserve(1)?;
        self.nodes.push(Some(Heads {
            observers: None,
            subjects: None,
        }))?;
        self.newest.push_reserved(0);
        Ok(node)
    }

    /// Returns how many numbers were given.
    pub fn len(&self) -> usize
        ensures { result ≡ length self.now.nodes }
    {
        self.nodes.len()
    }

    /// Returns whether a node is live.
    pub fn is_live(&self, node: ObjId) -> bool
        ensures { result ≡ is_some (heads_at self.now.nodes node) }
    {
        match self.nodes.get(node.place()) {
            Some(Some(_)) => true,
            Some(None) => false,
            None => false,
        }
    }

    /// Raises the number of spare places to at least `pairs`.
    ///
    /// # Errors
    ///
    /// `AllocError` where memory runs out. Then nothing has changed.
    pub fn reserve(&mut self, pairs: u32) -> Result<(), AllocError>
        ensures ok { OnOk result (self.new ≡ record self.old { spare = max self.old.spare pairs }) }
        ensures err { OnErr result (self.new ≡ self.old) }
    {
        let spare = self.spare.max(pairs as usize);
        make_room(&mut self.slots, spare)?;
        self.spare = spare;
        Ok(())
    }

    /// Adds a node without pairs and so many spare places, and returns the node's number.
    ///
    /// # Errors
    ///
    /// `AllocError` where memory runs out. Then nothing has changed.
    pub fn add_node_and_spare(&mut self, pairs: usize) -> Result<ObjId, AllocError>
        requires nodes { length self.old.nodes < MOST_NODES }
        requires pairs { pairs ≤ 65536 }
        ensures number { IfOk result (λ node. node ≡ length self.old.nodes) }
        ensures ok { OnOk result (self.new ≡ record (with_node self.old) { spare = self.old.spare + pairs }) }
        ensures err { OnErr result (self.new ≡ self.old) }
    {
        let node = ObjId(self.nodes.len() as u32);
        self.nodes.reserve(1)?;
        self.newest.reserve(1)?;
        let spare = self.spare + pairs;
        make_room(&mut self.slots, spare)?;
        self.spare = spare;
        self.nodes.push_reserved(Some(Heads {
            observers: None,
            subjects: None,
        }));
        self.newest.push_reserved(0);
        Ok(node)
    }

    /// Makes the observer observe the subject, without use of a spare place.
    ///
    /// # Errors
    ///
    /// `AllocError` where memory runs out. Then nothing has changed.
    pub fn link(&mut self, subject: ObjId, observer: ObjId) -> Result<(), AllocError>
        requires subject { IsLive self.old subject }
        requires observer { IsLive self.old observer }
        requires new { IsPair self.old subject observer → ⊥ }
        ensures ok { OnOk result (AddsPair self.old self.new subject observer) }
        ensures err { OnErr result (self.new ≡ self.old) }
        ensures spare { self.new.spare ≡ self.old.spare }
    {
        make_room(&mut self.slots, self.spare + 1)?;
        put_in(&mut self.slots, &mut self.nodes, subject, observer);
        raise(&mut self.newest, subject, observer);
        Ok(())
    }

    /// Makes the observer observe the subject, in a spare place. Takes no memory.
    pub fn link_spare(&mut self, subject: ObjId, observer: ObjId)
        requires room { 0 < self.old.spare }
        requires subject { IsLive self.old subject }
        requires observer { IsLive self.old observer }
        requires new { IsPair self.old subject observer → ⊥ }
        ensures pair { AddsPair self.old self.new subject observer }
        ensures spare { self.new.spare + 1 ≡ self.old.spare }
    {
        put_in(&mut self.slots, &mut self.nodes, subject, observer);
        raise(&mut self.newest, subject, observer);
        self.spare -= 1;
    }

    /// Removes a pair, which leaves a spare place, and returns whether there was one. Takes no memory. The time is proportional to the
    /// fewer of the subjects of the observer and the observers of the subject.
    pub fn unlink(&mut self, subject: ObjId, observer: ObjId) -> bool
        requires subject { IsLive self.old subject }
        requires observer { IsLive self.old observer }
        ensures was { IsTrue result ↔ IsPair self.old subject observer }
        ensures pair { TakesPair self.old self.new subject observer }
        ensures spare { self.new.spare ≡ self.old.spare + (if result then 1 else 0) }
        ensures count { pair_count self.new + (if result then 1 else 0) ≡ pair_count self.old }
    {
        let was = take_pair(&mut self.slots, &mut self.nodes, subject, observer);
        if was {
            self.spare += 1;
        }
        was
    }

    /// Removes a node with all its pairs, each of which leaves a spare place. Takes no memory. The time is proportional to its pairs.
    pub fn drop_node(&mut self, node: ObjId)
        requires { IsLive self.old node }
        ensures node { TakesNode self.old self.new node }
        ensures spare { self.new.spare + pair_count self.new ≡ self.old.spare + pair_count self.old }
        ensures room { self.old.spare ≤ self.new.spare }
    {
        let before = self.slots.len();
        take_node(&mut self.slots, &mut self.nodes, node);
        self.spare += before - self.slots.len();
    }

    /// Returns whether the observer observes the subject. The time is proportional to the fewer of the subjects of the observer and the
    /// observers of the subject, and constant if the observer is younger than all that ever observed the subject.
    pub fn has_pair(&self, subject: ObjId, observer: ObjId) -> bool
        requires { IsLive self.now observer }
        ensures { IsTrue result ↔ IsPair self.now subject observer }
    {
        if is_newer(&self.newest, subject, observer) {
            return false;
        }
        match find(&self.slots, &self.nodes, subject, observer) {
            Some(_) => true,
            None => false,
        }
    }

    /// Returns the first pair of which the node is the subject, if there is one. A removed node has none.
    pub fn first_observer(&self, node: ObjId) -> Option<EdgeId>
        requires { node < length self.now.nodes }
        ensures { GivesAll Subject self.now.slots node result }
    {
        first_at(&self.nodes, Side::Subject, node)
    }

    /// Returns the next pair with the same subject, if there is one.
    pub fn next_observer(&self, edge: EdgeId) -> Option<EdgeId>
        requires { IsThere self.now edge }
        ensures { GoesOn Subject self.now.slots edge result }
    {
        self.slots[edge.key()].subject.after
    }

    /// Returns the first pair of which the node is the observer, if there is one. A removed node has none.
    pub fn first_subject(&self, node: ObjId) -> Option<EdgeId>
        requires { node < length self.now.nodes }
        ensures { GivesAll Observer self.now.slots node result }
    {
        first_at(&self.nodes, Side::Observer, node)
    }

    /// Returns the subject and the observer of a pair.
    pub fn ends(&self, edge: EdgeId) -> (ObjId, ObjId)
        requires { IsThere self.now edge }
        ensures { IsEdge self.now.slots edge result.0 result.1 }
    {
        let pair = self.slots[edge.key()];
        (pair.subject.node, pair.observer.node)
    }

    /// Returns the observer of a pair, and the next pair with the same subject, if there is one. It looks at the slot once.
    pub fn observer_and_next(&self, edge: EdgeId) -> (ObjId, Option<EdgeId>)
        requires { IsThere self.now edge }
        ensures observer { HasObserver self.now edge result.0 }
        ensures next { GoesOn Subject self.now.slots edge result.1 }
    {
        let pair = &self.slots[edge.key()];
        (pair.observer.node, pair.subject.after)
    }

    /// Returns the subject of a pair, and the next pair with the same observer, if there is one. It looks at the slot once.
    pub fn subject_and_next(&self, edge: EdgeId) -> (ObjId, Option<EdgeId>)
        requires { IsThere self.now edge }
        ensures subject { HasSubject self.now edge result.0 }
        ensures next { GoesOn Observer self.now.slots edge result.1 }
    {
        let pair = &self.slots[edge.key()];
        (pair.subject.node, pair.observer.after)
    }

    /// A law, which does nothing: the invariant of all pairs between two calls.
    pub fn whole(&self)
        ensures { IsWhole self.now }
    {
        let _slots = &self.slots;
    }
}

// Returns whether a node has a greater number than each observer of a subject.
fn is_newer(newest: &Vec<u32>, subject: ObjId, observer: ObjId) -> bool
    ensures { result ≡ true → slice_index_or newest.now.items subject 0 < observer }
{
    match newest.get(subject.place()) {
        Some(most) => *most < observer.0,
        None => false,
    }
}

// Raises the bound of a subject to the number of a new observer.
fn raise(newest: &mut Vec<u32>, subject: ObjId, observer: ObjId)
    requires { subject < length newest.old.items }
    ensures { newest.new.items
        ≡ slice_set newest.old.items subject (max (slice_index_or newest.old.items subject 0) observer) }
{
    let most = newest[subject.place()];
    newest[subject.place()] = most.max(observer.0);
}
