// A graph whose notices may be held back.
ghost use Rattle.std.specs.Prelude.{◌≡◌, ◌↔◌, true, false, IsTrue};
ghost use Rattle.std.specs.Borrow.{sem};
ghost use Rattle.observer_graph.specs.GraphView.{IsLive};
ghost use Rattle.observer_graph.specs.Notice.{IsLeast, Tells};
ghost use Rattle.observer_graph.specs.Late.{IsClear, IsLateOf};
ghost use Rattle.observer_graph.specs.Change.{with_source, without_source};
ghost use Rattle.deferred_sources.specs.Lending.{LendsGraph};

use desk_names::ObjId;
use observer_graph::Graph;

/// A graph of observers, and whether its notices are held back. Those that hold one back are the marked sources of the
/// graph.
#[derive(Drop)]
pub struct Deferral {
    /// The graph.
    pub graph: Graph,
    on: bool,
}

impl Deferral {
    /// Deferral is off. Marks that stand in the graph stay.
    pub fn new(graph: Graph) -> Deferral
        ensures graph { result.graph ≡ graph }
        ensures on { result.on ≡ false }
    {
        Deferral { graph, on: false }
    }

    /// Whether notices are held back.
    pub fn is_on(&self) -> bool
        ensures { result ≡ self.now.on }
    {
        self.on
    }

    /// The graph. What is written through it is written to the graph of this deferral.
    pub fn graph(&mut self) -> &mut Graph
        ensures* writes_back { sem 𝓛 (LendsGraph self.entry result) }
        ensures value { result.now ≡ self.old.graph }
    {
        &mut self.graph
    }

    /// Notices are held back from now on.
    pub fn defer(&mut self)
        ensures on { self.new.on ≡ true }
        ensures graph { self.new.graph ≡ self.old.graph }
    {
        self.on = true;
    }

    /// Notices are held back no more: all sources tell at once, each told watcher is remembered in the graph beside those
    /// told before, and none is a source any more. Nothing where deferral is off. Takes no memory, and time in
    /// proportion to what is told.
    pub fn resume(&mut self)
        ensures on { self.new.on ≡ false }
        ensures told { self.old.on ≡ true → Tells self.old.graph self.new.graph }
        ensures same { self.old.on ≡ false → self.new.graph ≡ self.old.graph }
    {
        if self.on {
            self.on = false;
            self.graph.tell();
        }
    }

    /// A node was changed: it tells at once, or, where deferral is on, is a source from then on and nobody is told.
    /// Takes no memory.
    pub fn changed(&mut self, node: ObjId)
        requires { IsLive self.old.graph node }
        ensures on { self.new.on ≡ self.old.on }
        ensures held { self.old.on ≡ true → self.new.graph ≡ with_source node self.old.graph }
        ensures told { self.old.on ≡ false → Tells (with_source node self.old.graph) self.new.graph }
    {
        self.graph.mark_source(node);
        if !self.on {
            self.graph.tell();
        }
    }

    /// The least source that makes a node late: it is the node, or lies beneath it on a path whose inner nodes are not
    /// frozen. Takes no memory, and time in proportion to what lies beneath; where there is no source, none.
    pub fn late(&mut self, node: ObjId) -> Option<ObjId>
        requires { IsLive self.old.graph node }
        ensures answer { IsLeast (IsLateOf self.old.graph node) result }
        ensures same { self.new ≡ self.old }
    {
        self.graph.least_source(node)
    }

    /// Whether neither a node nor any node beneath it is frozen or a source. Takes no memory, and time in proportion
    /// to what lies beneath; where no node is frozen or a source, none.
    pub fn clear(&mut self, node: ObjId) -> bool
        requires { IsLive self.old.graph node }
        ensures answer { IsTrue result ↔ IsClear self.old.graph node }
        ensures same { self.new ≡ self.old }
    {
        self.graph.all_clear(node)
    }

    /// A node holds no notice back. Takes no memory, and time in proportion to the sources.
    pub fn forget(&mut self, node: ObjId)
        requires { IsLive self.old.graph node }
        ensures on { self.new.on ≡ self.old.on }
        ensures graph { self.new.graph ≡ without_source node self.old.graph }
    {
        self.graph.unmark(node);
    }
}
