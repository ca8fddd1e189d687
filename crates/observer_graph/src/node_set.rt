// Sets of nodes in the order in which the nodes were inserted, with room for every node.
ghost use Rattle.std.specs.Prelude.{◌≡◌, ◌⊎◌, ◌↔◌, ◌<◌, ◌++◌, ℕ, [], ◌∷◌, false, true, length, IsTrue, OnOk, OnErr, slice_set};
ghost use Rattle.walks.specs.Walk.{Among};
ghost use Rattle.observer_graph.specs.Lists.{is_marked, IsSet, Extends};

use crate::lists::take_out;
use desk_names::ObjId;
use std::alloc::{AllocError, Global};
use std::marker::Model;

/// A set of nodes. Clauses see the list of them in the order of insertion, a mark for each node, and for how many more nodes there
/// is room.
#[derive(Drop)]
pub struct NodeSet {
    marks: Vec<bool>,
    items: Vec<ObjId>,
}

impl Model for NodeSet {
    ghost use Rattle.std.specs.Prelude.{◌≤◌, ◌-◌, length, min, vec_capacity};
    ghost use Rattle.observer_graph.specs.Lists.{SetView, IsSet};

    ghost Value = { SetView };

    ghost view = { λ s. record {
      marks = s.marks.items;
      items = s.items.items;
      spare = min (vec_capacity s.marks) (vec_capacity s.items) - length s.marks.items;
    } };

    ghost invariant = { λ s. IsSet s.marks.items s.items.items × (length s.marks.items ≤ vec_capacity s.items) };
}

impl NodeSet {
    /// Makes an empty set, with room for no node.
    pub fn new(alloc: Global) -> NodeSet
        ensures marks { result.marks ≡ [] }
        ensures items { result.items ≡ [] }
    {
        NodeSet {
            marks: Vec::new(alloc),
            items: Vec::new(alloc),
        }
    }

    /// Reserves room for one more node.
    ///
    /// # Errors
    ///
    /// `AllocError` where memory runs out.
    pub fn reserve(&mut self) -> Result<(), AllocError>
        ensures ok { OnOk result (0 < self.new.spare) }
        ensures marks { self.new.marks ≡ self.old.marks }
        ensures items { self.new.items ≡ self.old.items }
    {
        let room = self.marks.len() + 1;
        self.marks.reserve(1)?;
        self.items.reserve(room - self.items.len())?;
        Ok(())
    }

    /// Raises the number of nodes that may be inserted by one.
    pub fn grow(&mut self)
        requires { 0 < self.old.spare }
        ensures marks { self.new.marks ≡ self.old.marks ++ false ∷ [] }
        ensures items { self.new.items ≡ self.old.items }
    {
        self.marks.push_reserved(false);
    }

    /// Returns the nodes in order of insertion.
    pub fn items(&self) -> &[ObjId]
        ensures items { result.now ≡ self.now.items }
        ensures set { IsSet self.now.marks self.now.items }
    {
        &self.items
    }

    /// Returns whether a node is in the set.
    pub fn contains(&self, node: ObjId) -> bool
        requires { node < length self.now.marks }
        ensures marks { result ≡ is_marked self.now.marks node }
        ensures items { IsTrue result ↔ Among node self.now.items }
    {
        self.marks[node.place()]
    }

    /// Appends a node, unless it is in the set.
    pub fn insert(&mut self, node: ObjId)
        requires { node < length self.old.marks }
        ensures marks { self.new.marks ≡ slice_set self.old.marks node true }
        ensures extends { Extends self.old self.new (λ o. o ≡ node) }
    {
        if !self.marks[node.place()] {
            self.marks[node.place()] = true;
            self.items.push_reserved(node);
        }
    }

    /// Appends each of these nodes that is not in the set.
    pub fn insert_all(&mut self, nodes: &[ObjId])
        requires { (o : ℕ) → Among o nodes.now → o < length self.old.marks }
        ensures { Extends self.old self.new (λ o. Among o nodes.now) }
    {
        for node in nodes {
            self.insert(*node);
        }
    }

    /// Removes a node, if it is in the set.
    pub fn remove(&mut self, node: ObjId)
        requires { node < length self.old.marks }
        ensures { self.new.marks ≡ slice_set self.old.marks node false }
    {
        if self.marks[node.place()] {
            self.marks[node.place()] = false;
            take_out(&mut self.items, node);
        }
    }

    /// Removes all nodes, in time proportional to their number.
    pub fn clear(&mut self)
        ensures marks { (o : ℕ) → is_marked self.new.marks o ≡ false }
        ensures len { length self.new.marks ≡ length self.old.marks }
        ensures items { self.new.items ≡ [] }
        ensures spare { self.new.spare ≡ self.old.spare }
    {
        unmark_all(&mut self.marks, &self.items);
        self.items.clear();
    }
}

// Clears the marks of these nodes.
fn unmark_all(marks: &mut [bool], nodes: &[ObjId])
    requires { IsSet marks.old nodes.now }
    ensures marks { (o : ℕ) → is_marked marks.new o ≡ false }
{
    for node in nodes {
        marks[node.place()] = false;
    }
}
