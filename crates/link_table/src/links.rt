// The targets of holders.
ghost use Rattle.std.specs.Prelude.{◌≡◌, ◌↔◌, ◌+◌, ◌<◌, ◌≤◌, ◌^◌, ℕ, None, Some, true, is_some, length, max, IsTrue, OnOk, OnErr, if◌then◌else◌};
ghost use Rattle.observer_graph.specs.GraphView.{GraphView, IsLive, IsPair};
ghost use Rattle.link_table.specs.Links.{ChangesAt, Fits, FitsBut, IsHolder, Relinks, free_count, link_at, target_at};

use crate::watching::{unwatch_target, watch_target};
use desk_names::ObjId;
use observer_graph::Graph;
use std::alloc::{AllocError, Global};
use std::marker::Model;

/// What is kept of a holder: its target, if it is linked.
#[derive(Clone, Copy, PartialEq, Eq)]
pub struct Link {
    pub target: Option<ObjId>,
}

/// Which target each holder has. A clause sees a finite map: `target_at` of a number, and whether it `IsHolder`.
#[derive(Drop)]
pub struct Links {
    links: Vec<Option<Link>>,
    // How many holders are not linked.
    free: usize,
}

impl Model for Links {
    ghost use Rattle.std.specs.Prelude.{◌≡◌, List, Option};
    ghost use Rattle.link_table.specs.declared.links.Link.{Link};
    ghost use Rattle.link_table.specs.Links.{free_count};

    ghost Value = { List (Option Link) };

    ghost view = { λ l. l.links.items };

    ghost invariant = { λ l. l.free ≡ free_count l.links.items };
}

impl Links {
    /// No holders. Later calls take memory from the allocator given here.
    pub fn new(alloc: Global) -> Links
        ensures { (h : ℕ) → link_at result h ≡ None }
    {
        Links {
            links: Vec::new(alloc),
            free: 0,
        }
    }

    /// A new holder, which is not linked. It need not live yet. The graph has a spare place then for each holder that is
    /// not linked. After want of memory each number keeps what it has, and the graph is as it was.
    pub fn add(&mut self, graph: &mut Graph, holder: ObjId) -> Result<(), AllocError>
        requires fit { Fits self.old graph.old }
        requires new { IsHolder self.old holder → ⊥ }
        ensures ok { OnOk result (ChangesAt self.old self.new holder (Some (record { target = None }))) }
        ensures err { OnErr result ((h : ℕ) → link_at self.new h ≡ link_at self.old h) }
        ensures graph { OnOk result (graph.new ≡ record graph.old { spare = max graph.old.spare (free_count self.new) }) }
        ensures graph_err { OnErr result (graph.new ≡ graph.old) }
        ensures fit { Fits self.new graph.new }
    {
        grow(&mut self.links, holder)?;
        reserve_for(graph, self.free + 1)?;
        self.links[holder.place()] = Some(Link { target: None });
        self.free += 1;
        Ok(())
    }

    /// The holder has this target, or none; whether that is a change. In the graph the holder's pair with the old
    /// target goes and leaves its place to the pair with the new one. Takes no memory.
    pub fn relink(&mut self, graph: &mut Graph, holder: ObjId, target: Option<ObjId>) -> bool
        requires fit { Fits self.old graph.old }
        requires holder { IsHolder self.old holder }
        requires live { IsLive graph.old holder }
        requires target { (t : ℕ) → target ≡ Some t → IsLive graph.old t }
        requires new { (t : ℕ) → target ≡ Some t → (target_at self.old holder ≡ target → ⊥)
            → IsPair graph.old t holder → ⊥ }
        ensures changed { IsTrue result ↔ (target_at self.old holder ≡ target → ⊥) }
        ensures ok { ChangesAt self.old self.new holder (Some (record { target = target })) }
        ensures pairs { Relinks graph.old graph.new holder (target_at self.old holder) target }
        ensures spare { graph.new.spare + (if is_some target then 1 else 0)
            ≡ graph.old.spare + (if is_some (target_at self.old holder) then 1 else 0) }
        ensures fit { Fits self.new graph.new }
    {
        let held = self.target(holder);
        if is_same(&held, &target) {
            return false;
        }
        unwatch_target(graph, held, holder);
        watch_target(graph, target, holder);
        self.free = recounted(self.free, held.is_none(), target.is_none());
        self.links[holder.place()] = Some(Link { target });
        true
    }

    /// The target of a holder, if it is linked.
    pub fn target(&self, holder: ObjId) -> Option<ObjId>
        requires { IsHolder self.now holder }
        ensures { result ≡ target_at self.now holder }
    {
        match &self.links[holder.place()] {
            None => None,
            Some(link) => link.target,
        }
    }

    /// The number is no holder. Its pair stays in the graph, and so does a place that was spare for it.
    pub fn remove(&mut self, holder: ObjId)
        requires { IsHolder self.old holder }
        ensures gone { ChangesAt self.old self.new holder None }
        ensures fit { (graph : GraphView) → FitsBut holder self.old graph → Fits self.new graph }
    {
        let held = self.target(holder);
        self.free = recounted(self.free, held.is_none(), false);
        self.links[holder.place()] = None;
    }
}

// A place for the holder, where nothing is kept yet.
fn grow(links: &mut Vec<Option<Link>>, holder: ObjId) -> Result<(), AllocError>
    ensures same { (h : ℕ) → link_at links.new.items h ≡ link_at links.old.items h }
    ensures ok { OnOk result (holder < length links.new.items) }
{
    while links.len() <= holder.place() {
        links.push(None)?;
    }
    Ok(())
}

// Finds a spare place for each of so many holders. After want of memory the graph is as it was; so it is where there are
// more holders than a graph can have pairs.
fn reserve_for(graph: &mut Graph, holders: usize) -> Result<(), AllocError>
    ensures ok { OnOk result (graph.new ≡ record graph.old { spare = max graph.old.spare holders }) }
    ensures err { OnErr result (graph.new ≡ graph.old) }
{
    match u32::try_from(holders) {
        Ok(pairs) => graph.reserve(pairs),
        Err(_) => Err(AllocError),
    }
}

// How many holders are not linked, once one of them is linked or is so no more.
fn recounted(count: usize, was: bool, is: bool) -> usize
    requires some { was ≡ true → 0 < count }
    requires room { count < 2 ^ 63 }
    ensures { result + (if was then 1 else 0) ≡ count + (if is then 1 else 0) }
{
    let others = if was { count - 1 } else { count };
    if is { others + 1 } else { others }
}

// Whether two targets are one, or both are none.
fn is_same(held: &Option<ObjId>, target: &Option<ObjId>) -> bool
    ensures { IsTrue result ↔ (held.now ≡ target.now) }
{
    held == target
}
