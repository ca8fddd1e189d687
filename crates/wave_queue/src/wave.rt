// The worklist and its calls.
ghost use Rattle.std.specs.Prelude.{◌≡◌, ◌<◌, ◌≤◌, ◌+◌, ◌-◌, ◌++◌, ℕ, [], ◌∷◌, true, false, length, not, replicate, slice_index_or, slice_set, vec_len, vec_capacity, IfNone, IfSome, MatchOption, OnOk, OnErr, if◌then◌else◌};
ghost use Rattle.walks.specs.Walk.{Among};
ghost use Rattle.wave_queue.specs.Thread.{is_marked};

use desk_names::ObjId;
use std::alloc::{AllocError, Global};
use std::marker::Model;

/// A list of nodes that wait, and a set of marked ones: those that wait and those that were handed out. A clause sees a
/// `WaveView`.
pub struct Wave {
    // The marked nodes are those with this stamp.
    stamp: u32,
    stamps: Vec<u32>,
    // Which node was put in after none, at place 0, and after each node, at the place behind its number.
    nexts: Vec<ObjId>,
    // The places of the node that was handed out last and of the one that was put in last, or of none.
    done: usize,
    last: usize,
}

// One call at each exit of who lets it go.
impl Drop for Wave {
    fn drop(self) {
        let Wave {
            stamp: _,
            stamps: _,
            nexts: _,
            done: _,
            last: _,
        } = self;
    }
}

impl Model for Wave {
    ghost use Rattle.std.specs.Prelude.{length};
    ghost use Rattle.wave_queue.specs.Thread.{WaveView, Stands, marks_by, nodes_between};

    ghost Value = { WaveView };

    ghost view = { λ w. record {
      marks = marks_by w.stamp w.stamps.items;
      waiting = nodes_between w.nexts.items (length w.nexts.items) w.done w.last;
    } };

    ghost invariant = { λ w. Stands w.stamp w.stamps.items w.nexts.items w.done w.last };
}

impl Wave {
    /// No node waits and none is marked; there is room for no node. `grow` takes memory from the allocator given here.
    pub fn new(alloc: Global) -> Wave
        ensures { result ≡ record { marks = []; waiting = [] } }
    {
        Wave {
            stamp: 1,
            stamps: Vec::new(alloc),
            nexts: Vec::new(alloc),
            done: 0,
            last: 0,
        }
    }

    /// Finds room for the nodes below this number, where memory is not wanting. After want of memory nothing changed.
    pub fn grow(&mut self, nodes: u32) -> Result<(), AllocError>
        ensures ok { OnOk result (self.new ≡ record self.old {
          marks = self.old.marks ++ replicate (nodes - length self.old.marks) false;
        }) }
        ensures err { OnErr result (self.new ≡ self.old) }
    {
        let more = (nodes as usize).saturating_sub(self.stamps.len());
        let places = (nodes as usize + 1).saturating_sub(self.nexts.len());
        self.stamps.reserve(more)?;
        self.nexts.reserve(places)?;
        widen_stamps(&mut self.stamps, more);
        widen_nexts(&mut self.nexts, places);
        Ok(())
    }

    /// Puts a node last, unless it is marked, and marks it; whether it was put there. Takes no memory.
    pub fn push(&mut self, node: ObjId) -> bool
        requires { node < length self.old.marks }
        ensures was { result ≡ not (is_marked self.old.marks node) }
        ensures marks { self.new.marks ≡ slice_set self.old.marks node true }
        ensures waiting { self.new.waiting ≡ (if result then self.old.waiting ++ node ∷ [] else self.old.waiting) }
    {
        if self.stamps[node.place()] == self.stamp {
            return false;
        }
        self.stamps[node.place()] = self.stamp;
        self.nexts[self.last] = node;
        self.last = node.place() + 1;
        true
    }

    /// Marks a node and puts it nowhere; whether it was not marked. Takes no memory.
    pub fn mark(&mut self, node: ObjId) -> bool
        requires { node < length self.old.marks }
        ensures was { result ≡ not (is_marked self.old.marks node) }
        ensures marks { self.new.marks ≡ slice_set self.old.marks node true }
        ensures waiting { self.new.waiting ≡ self.old.waiting }
    {
        if self.stamps[node.place()] == self.stamp {
            return false;
        }
        self.stamps[node.place()] = self.stamp;
        true
    }

    /// Hands out the first node that waits; it stays marked. Takes no memory.
    pub fn pop(&mut self) -> Option<ObjId>
        ensures waiting { MatchOption result (self.old.waiting ≡ [])
            (λ node. self.old.waiting ≡ node ∷ self.new.waiting) }
        ensures same { IfNone result (self.new ≡ self.old) }
        ensures marked { IfSome result (λ node. is_marked self.old.marks node ≡ true) }
        ensures once { IfSome result (λ node. Among node self.new.waiting → ⊥) }
        ensures marks { self.new.marks ≡ self.old.marks }
    {
        if self.done == self.last {
            return None;
        }
        let node = self.nexts[self.done];
        self.done = node.place() + 1;
        Some(node)
    }

    /// Whether a node is marked.
    pub fn is_marked(&self, node: ObjId) -> bool
        requires { node < length self.now.marks }
        ensures { result ≡ is_marked self.now.marks node }
    {
        self.stamps[node.place()] == self.stamp
    }

    /// No node waits and none is marked. Takes no memory, and time in proportion to the nodes once in 2^32 calls, else none.
    pub fn reset(&mut self)
        ensures marks { (o : ℕ) → is_marked self.new.marks o ≡ false }
        ensures len { length self.new.marks ≡ length self.old.marks }
        ensures waiting { self.new.waiting ≡ [] }
    {
        self.stamp = next_stamp(&mut self.stamps, self.stamp);
        self.done = 0;
        self.last = 0;
    }
}

// A stamp that is greater than each. Where there is none, each is 0 from then on.
fn next_stamp(stamps: &mut Vec<u32>, stamp: u32) -> u32
    requires { (o : ℕ) → slice_index_or stamps.old.items o 0 ≤ stamp }
    ensures later { (o : ℕ) → slice_index_or stamps.new.items o 0 < result }
    ensures len { length stamps.new.items ≡ length stamps.old.items }
{
    if stamp == u32::MAX {
        wipe(stamps);
        return 1;
    }
    stamp + 1
}

// Each stamp is 0.
fn wipe(stamps: &mut Vec<u32>)
    ensures zero { (o : ℕ) → slice_index_or stamps.new.items o 0 ≡ 0 }
    ensures len { length stamps.new.items ≡ length stamps.old.items }
{
    for at in 0..stamps.len() {
        stamps[at] = 0;
    }
}

// So many nodes more, none of them marked.
fn widen_stamps(stamps: &mut Vec<u32>, more: usize)
    requires { vec_len stamps.old + more ≤ vec_capacity stamps.old }
    ensures { stamps.new.items ≡ stamps.old.items ++ replicate more 0 }
{
    for _ in 0..more {
        stamps.push_reserved(0);
    }
}

// So many places more.
fn widen_nexts(nexts: &mut Vec<ObjId>, more: usize)
    requires { vec_len nexts.old + more ≤ vec_capacity nexts.old }
    ensures { nexts.new.items ≡ nexts.old.items ++ replicate more 0 }
{
    for _ in 0..more {
        nexts.push_reserved(ObjId(0));
    }
}
