// The graph of observers.
ghost use Rattle.std.specs.Prelude.{◌≡◌, ◌↔◌, ◌<◌, ◌≤◌, ◌+◌, ℕ, [], ◌∷◌, length, max, true, IsTrue, IfOk, IfSome, IfNone, OnOk, OnErr, is_some, if◌then◌else◌};
ghost use Rattle.walks.specs.Walk.{Among};
ghost use Rattle.observer_graph.specs.GraphView.{IsLive, IsLazy, IsPair, IsWhole, node_at, flags_of, flags_at, is_source};
ghost use Rattle.observer_graph.specs.Notice.{IsLeast, IsUser, Reaches, Tells, with_stale};
ghost use Rattle.observer_graph.specs.Late.{IsClear, IsLateOf, StandsAs};
ghost use Rattle.observer_graph.specs.Noticed.{IsRising};
ghost use Rattle.observer_graph.specs.Change.{AddsNode, AddsPair, TakesPair, TakesNode, flagged, with_node, with_flags, with_source, without_source};

use crate::beneath::{is_clear, is_frozen, least_beneath, recounted};
use crate::by_turns::{leads_by_turns, make_room};
use crate::node::{Flags, Node, Role, Standing};
use crate::node_set::NodeSet;
use crate::pairs::{add_linked, least_user_of};
use crate::rising::{reserve_for, take_out};
use crate::walk::{tell_all, unsettle_one};
use desk_names::ObjId;
use edge_lists::Edges;
use std::alloc::{AllocError, Global};
use std::collections::VecDeque;
use std::marker::Model;
use wave_queue::Wave;

/// The greatest count of numbers that a graph gives.
pub const MOST_NODES: usize = 65_536;

/// Nodes with their roles and flags, the pairs of a subject and an observer, each once, spare places for more pairs, and the
/// marked sources of the next notification. Clauses see a `GraphView`. Only `watch_spare` lowers the number of spare places.
#[derive(Drop)]
pub struct Graph {
    nodes: Vec<Option<Node>>,
    edges: Edges,
    sources: NodeSet,
    // How many nodes are frozen.
    frozen: usize,
    // The notified watchers that were not returned since, by creation. There is room for every node.
    noticed: VecDeque<ObjId>,
    // The subjects of a new node, during a call. Empty between calls.
    wave: NodeSet,
    // The dependencies of a node and the dependents of one, during a call. Empty between calls.
    down: Wave,
    up: Wave,
}

impl Model for Graph {
    ghost use Rattle.std.specs.Prelude.{◌≡◌, ◌≤◌, length};
    ghost use Rattle.std.specs.VecDeque.{deque_capacity};
    ghost use Rattle.edge_lists.specs.EdgesView.{subject_lists};
    ghost use Rattle.observer_graph.specs.GraphView.{GraphView};
    ghost use Rattle.observer_graph.specs.Noticed.{AreNoticed};
    ghost use Rattle.observer_graph.specs.Late.{frozen_count};
    ghost use Rattle.observer_graph.specs.Stands.{Stands};
    ghost use Rattle.observer_graph.specs.Turns.{IsFree};

    ghost Value = { GraphView };

    ghost view = { λ g. record {
      nodes = g.nodes.items;
      subjects = subject_lists g.edges;
      sources = g.sources.marks;
      noticed = g.noticed.items;
      spare = g.edges.spare;
    } };

    ghost invariant = { λ g. Stands g.nodes.items g.edges g.sources g.wave × (g.frozen ≡ frozen_count g.nodes.items)
        × AreNoticed g.noticed.items (length g.nodes.items) × (length g.nodes.items ≤ deque_capacity g.noticed)
        × IsFree (length g.edges.nodes) g.down × IsFree (length g.edges.nodes) g.up };
}

impl Graph {
    /// Starts without nodes. Later calls allocate from this allocator.
    pub fn new(alloc: Global) -> Graph
        ensures { result ≡ record { nodes = []; subjects = []; sources = []; noticed = []; spare = 0 } }
    {
        Graph {
            nodes: Vec::new(alloc),
            edges: Edges::new(alloc),
            sources: NodeSet::new(alloc),
            frozen: 0,
            noticed: VecDeque::new(alloc),
            wave: NodeSet::new(alloc),
            down: Wave::new(alloc),
            up: Wave::new(alloc),
        }
    }

    /// Adds a node and returns its number. It observes nothing, is no source, and its flags are off.
    ///
    /// # Errors
    ///
    /// `AllocError` where memory runs out. Then the graph is as before.
    pub fn add(&mut self, role: Role) -> Result<ObjId, AllocError>
        requires { length self.old.nodes < MOST_NODES }
        ensures number { IfOk result (λ node. node ≡ length self.old.nodes) }
        ensures ok { OnOk result (self.new ≡ with_node role self.old) }
        ensures err { OnErr result (self.new ≡ self.old) }
        ensures whole { IsWhole self.new }
    {
        self.nodes.reserve(1)?;
        self.sources.reserve()?;
        self.wave.reserve()?;
        let nodes = self.nodes.len() + 1;
        reserve_for(&mut self.noticed, nodes)?;
        make_room(&mut self.down, &mut self.up, nodes)?;
        let node = self.edges.add_node()?;
        self.edges.whole();
        self.nodes.push_reserved(Some(Node {
            role,
            flags: Flags::default(),
        }));
        self.sources.grow();
        self.wave.grow();
        Ok(node)
    }

    /// Adds a node that observes these subjects, each once, and returns its number. It is no source, and its flags are off.
    ///
    /// # Errors
    ///
    /// `AllocError` where memory runs out. Then the graph is as before.
    pub fn add_watching(&mut self, role: Role, subjects: &[ObjId]) -> Result<ObjId, AllocError>
        requires room { length self.old.nodes < MOST_NODES }
        requires live { (x : ℕ) → Among x subjects.now → IsLive self.old x }
        ensures number { IfOk result (λ node. node ≡ length self.old.nodes) }
        ensures ok { OnOk result (AddsNode role subjects.now self.old self.new) }
        ensures err { OnErr result (self.new ≡ self.old) }
        ensures whole { IsWhole self.new }
    {
        self.nodes.reserve(1)?;
        self.sources.reserve()?;
        self.wave.reserve()?;
        let nodes = self.nodes.len() + 1;
        reserve_for(&mut self.noticed, nodes)?;
        make_room(&mut self.down, &mut self.up, nodes)?;
        self.wave.insert_all(subjects);
        let added = add_linked(&mut self.edges, self.wave.items());
        self.wave.clear();
        self.edges.whole();
        let node = added?;
        self.nodes.push_reserved(Some(Node {
            role,
            flags: Flags::default(),
        }));
        self.sources.grow();
        self.wave.grow();
        Ok(node)
    }

    /// Makes the observer observe the subject, without use of a spare place.
    ///
    /// # Errors
    ///
    /// `AllocError` where memory runs out. Then the graph is as before.
    pub fn watch(&mut self, subject: ObjId, observer: ObjId) -> Result<(), AllocError>
        requires subject { IsLive self.old subject }
        requires observer { IsLive self.old observer }
        requires new { IsPair self.old subject observer → ⊥ }
        ensures ok { OnOk result (AddsPair self.old self.new subject observer) }
        ensures err { OnErr result (self.new ≡ self.old) }
        ensures spare { self.new.spare ≡ self.old.spare }
        ensures whole { IsWhole self.new }
    {
        let linked = self.edges.link(subject, observer);
        self.edges.whole();
        linked
    }

    /// Raises the number of spare places to at least `pairs`.
    ///
    /// # Errors
    ///
    /// `AllocError` where memory runs out. Then the graph is as before.
    pub fn reserve(&mut self, pairs: u32) -> Result<(), AllocError>
        ensures ok { OnOk result (self.new ≡ record self.old { spare = max self.old.spare pairs }) }
        ensures err { OnErr result (self.new ≡ self.old) }
    {
        let found = self.edges.reserve(pairs);
        self.edges.whole();
        found
    }

    /// Makes the observer observe the subject, in a spare place. Takes no memory.
    pub fn watch_spare(&mut self, subject: ObjId, observer: ObjId)
        requires room { 0 < self.old.spare }
        requires subject { IsLive self.old subject }
        requires observer { IsLive self.old observer }
        requires new { IsPair self.old subject observer → ⊥ }
        ensures pair { AddsPair self.old self.new subject observer }
        ensures spare { self.new.spare + 1 ≡ self.old.spare }
        ensures whole { IsWhole self.new }
    {
        self.edges.link_spare(subject, observer);
        self.edges.whole();
    }

    /// Removes a pair, which leaves a spare place, and returns whether there was one. Takes no memory.
    pub fn unwatch(&mut self, subject: ObjId, observer: ObjId) -> bool
        requires subject { IsLive self.old subject }
        requires observer { IsLive self.old observer }
        ensures was { IsTrue result ↔ IsPair self.old subject observer }
        ensures pairs { TakesPair self.old self.new subject observer }
        ensures spare { self.new.spare ≡ self.old.spare + (if result then 1 else 0) }
    {
        let was = self.edges.unlink(subject, observer);
        self.edges.whole();
        was
    }

    /// Removes a node with all its pairs, its mark as a source and its notifications. Each pair leaves a spare place. Takes no memory.
    pub fn remove(&mut self, node: ObjId)
        requires { IsLive self.old node }
        ensures { TakesNode self.old self.new node }
    {
        let was = is_frozen(&self.nodes[node.place()]);
        self.frozen = recounted(self.frozen, was, false);
        self.edges.drop_node(node);
        self.edges.whole();
        self.sources.remove(node);
        take_out(&mut self.noticed, node);
        self.nodes[node.place()] = None;
    }

    /// Returns whether `from` is `to` or depends on it. Edges of watchers do not count. Takes no memory. The time is proportional to
    /// the lesser of the dependencies of `from` and the dependents of `to`, and constant if nothing observes `to`.
    pub fn reaches(&mut self, from: ObjId, to: ObjId) -> bool
        requires from { IsLive self.old from }
        requires to { IsLive self.old to }
        ensures answer { IsTrue result ↔ Reaches self.old from to }
        ensures same { self.new ≡ self.old }
        ensures whole { IsWhole self.new }
    {
        let answer = leads_by_turns(
            &self.edges,
            &self.nodes,
            from,
            to,
            &mut self.down,
            &mut self.up,
        );
        self.down.reset();
        self.up.reset();
        answer
    }

    /// Takes the first notified watcher, by creation, and forgets its notification. `None` if there is none. Takes no memory, and
    /// moves none of the others.
    pub fn next_told(&mut self) -> Option<ObjId>
        ensures order { IsRising self.old.noticed }
        ensures none { IfNone result ((self.old.noticed ≡ []) × (self.new ≡ self.old)) }
        ensures some { IfSome result (λ w. (self.old.noticed ≡ w ∷ self.new.noticed)
            × (self.new ≡ record self.old { noticed = self.new.noticed })) }
    {
        self.noticed.pop_front()
    }

    /// Returns whether the observer observes the subject. Takes no memory. The time is proportional to the fewer of the subjects of
    /// the observer and the observers of the subject.
    pub fn has_pair(&self, subject: ObjId, observer: ObjId) -> bool
        requires subject { IsLive self.now subject }
        requires observer { IsLive self.now observer }
        ensures { IsTrue result ↔ IsPair self.now subject observer }
    {
        self.edges.has_pair(subject, observer)
    }

    /// Returns whether a node observes any other. Takes no memory.
    pub fn has_subject(&self, node: ObjId) -> bool
        requires { IsLive self.now node }
        ensures { IsTrue result ↔ ((x : ℕ) × IsPair self.now x node) }
    {
        self.edges.first_subject(node).is_some()
    }

    /// Returns the least observer of a node, watchers aside. The time is proportional to its observers.
    pub fn least_observer(&self, node: ObjId) -> Option<ObjId>
        requires { IsLive self.now node }
        ensures { IsLeast (IsUser self.now node) result }
    {
        least_user_of(&self.edges, node, &self.nodes)
    }

    /// Returns whether a live node has this number.
    pub fn is_live(&self, node: ObjId) -> bool
        ensures { result ≡ is_some (node_at self.now node) }
    {
        match self.nodes.get(node.place()) {
            Some(Some(_)) => true,
            Some(None) => false,
            None => false,
        }
    }

    /// Returns whether a node is live and lazy.
    pub fn is_lazy(&self, node: ObjId) -> bool
        ensures { IsTrue result ↔ IsLazy (node_at self.now node) }
    {
        match self.nodes.get(node.place()) {
            Some(Some(live)) => live.role == Role::Lazy,
            Some(None) => false,
            None => false,
        }
    }

    /// Returns whether a node is live and current.
    pub fn is_current(&self, node: ObjId) -> bool
        ensures { result ≡ (flags_at self.now node).current }
    {
        match self.nodes.get(node.place()) {
            Some(Some(live)) => live.flags.current,
            Some(None) => false,
            None => false,
        }
    }

    /// Returns the flags of a node. All are off on a node that is not lazy.
    pub fn flags(&self, node: ObjId) -> Flags
        requires { IsLive self.now node }
        ensures { result ≡ flags_at self.now node }
    {
        match &self.nodes[node.place()] {
            None => Flags::default(),
            Some(live) => live.flags,
        }
    }

    /// Sets the flags of a lazy node. Notifies nobody and takes no memory.
    #[inline(always)]
    pub fn set_flags(&mut self, node: ObjId, flags: Flags)
        requires { IsLazy (node_at self.old node) }
        ensures { self.new ≡ with_flags node flags self.old }
    {
        let was = is_frozen(&self.nodes[node.place()]);
        self.frozen = recounted(self.frozen, was, flags.frozen);
        set_flags_of(&mut self.nodes[node.place()], flags);
    }

    /// Marks a lazy node as current. Notifies nobody and takes no memory.
    #[inline(always)]
    pub fn settle(&mut self, node: ObjId)
        requires { IsLazy (node_at self.old node) }
        ensures { self.new ≡ with_flags node (record (flags_at self.old node) { current = true }) self.old }
    {
        settle_one(&mut self.nodes[node.place()]);
    }

    /// Marks a node as out of date, whatever its role. Notifies nobody and takes no memory.
    pub fn outdate(&mut self, node: ObjId)
        requires { IsLive self.old node }
        ensures { self.new ≡ with_stale node self.old }
    {
        unsettle_one(&mut self.nodes[node.place()]);
    }

    /// Marks a node as a source of the next notification. Takes no memory.
    pub fn mark_source(&mut self, node: ObjId)
        requires { IsLive self.old node }
        ensures { self.new ≡ with_source node self.old }
    {
        self.sources.insert(node);
    }

    /// Returns whether a node is live and a marked source.
    pub fn is_source(&self, node: ObjId) -> bool
        ensures { result ≡ is_source self.now node }
    {
        if node.place() >= self.nodes.len() {
            return false;
        }
        self.sources.contains(node)
    }

    /// Removes the mark of a source. Takes no memory. The time is proportional to the sources.
    pub fn unmark(&mut self, node: ObjId)
        requires { IsLive self.old node }
        ensures { self.new ≡ without_source node self.old }
    {
        self.sources.remove(node);
    }

    /// Returns the least marked source that is the node or that it depends on, on a path whose inner nodes are not frozen. Takes no
    /// memory. The time is proportional to its dependencies, and constant if no node is marked.
    pub fn least_source(&mut self, node: ObjId) -> Option<ObjId>
        requires { IsLive self.old node }
        ensures answer { IsLeast (IsLateOf self.old node) result }
        ensures same { self.new ≡ self.old }
    {
        if self.sources.items().is_empty() {
            return None;
        }
        let least = least_beneath(
            &self.edges,
            &self.nodes,
            &self.sources,
            node,
            &mut self.down,
        );
        self.down.reset();
        least
    }

    /// Returns whether neither the node nor any node that it depends on is frozen or a marked source. Takes no memory. The time is
    /// proportional to its dependencies, and constant if no node is frozen or marked.
    pub fn all_clear(&mut self, node: ObjId) -> bool
        requires { IsLive self.old node }
        ensures answer { IsTrue result ↔ IsClear self.old node }
        ensures same { self.new ≡ self.old }
    {
        if self.frozen == 0 && self.sources.items().is_empty() {
            return true;
        }
        let clear = is_clear(
            &self.edges,
            &self.nodes,
            &self.sources,
            node,
            &mut self.down,
        );
        self.down.reset();
        clear
    }

    /// Returns how a node appears to an ask. Takes no memory. The time is proportional to its dependencies, and constant if no node
    /// is frozen or marked.
    #[inline(always)]
    pub fn standing(&mut self, node: ObjId) -> Standing
        requires { IsLive self.old node }
        ensures standing { StandsAs self.old node result }
        ensures same { self.new ≡ self.old }
    {
        if self.frozen == 0 && self.sources.items().is_empty() {
            return Standing::Clear;
        }
        self.standing_beneath(node)
    }

    // Returns the same by a walk over the node's dependencies.
    #[inline(never)]
    fn standing_beneath(&mut self, node: ObjId) -> Standing
        requires { IsLive self.old node }
        ensures standing { StandsAs self.old node result }
        ensures same { self.new ≡ self.old }
    {
        if self.flags(node).frozen {
            return Standing::Frozen;
        }
        if let Some(_) = self.least_source(node) {
            return Standing::Late;
        }
        if self.all_clear(node) {
            Standing::Clear
        } else {
            Standing::Held
        }
    }

    /// Sends a notification from all marked sources together. Each node that it reaches is out of date, each watcher among them is
    /// remembered, and no source stays marked. The flags before the call decide whom it reaches. Takes no memory. The time is
    /// proportional to the sources, to the notified nodes and to their pairs.
    pub fn tell(&mut self)
        ensures { Tells self.old self.new }
    {
        tell_all(
            &self.edges,
            &mut self.nodes,
            &self.sources,
            &mut self.down,
            &mut self.noticed,
        );
        self.down.reset();
        self.sources.clear();
    }
}

// Marks a live node as current.
fn settle_one(node: &mut Option<Node>)
    ensures { node.new ≡ flagged (record (flags_of node.old) { current = true }) node.old }
{
    if let Some(live) = node {
        live.flags.current = true;
    }
}

// Sets the flags of a live node.
fn set_flags_of(node: &mut Option<Node>, flags: Flags)
    ensures { node.new ≡ flagged flags node.old }
{
    if let Some(live) = node {
        live.flags = flags;
    }
}
