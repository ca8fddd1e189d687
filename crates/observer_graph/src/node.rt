// The data of a node.
ghost use Rattle.std.specs.Prelude.{◌↔◌, IsTrue};
ghost use Rattle.observer_graph.specs.declared.node.Role.TheVariants.{Lazy, Watcher};
ghost use Rattle.observer_graph.specs.GraphView.{IsWatcher};

/// How a node takes a notification. A source gets none. A forwarder passes each on. A lazy node becomes out of date, and passes
/// it on if it was current or always forwards, and is not frozen. A watcher is remembered.
#[derive(Clone, Copy, PartialEq, Eq)]
pub enum Role {
    Source,
    Forwarder,
    Lazy,
    /// It passes nothing on, and is returned by `next_told` once it was notified. The pairs in which it observes are no edges: no path
    /// goes through them, and they do not count as uses.
    Watcher,
}

/// The flags of a lazy node (QuantLib's `LazyObject`). They are off on every other node.
#[derive(Clone, Copy, Default)]
pub struct Flags {
    /// Its value was computed, and no notification has reached it since (`calculated_`).
    pub current: bool,
    /// It takes notifications without passing them on (`frozen_`).
    pub frozen: bool,
    /// It passes on each notification, even while it is out of date (`alwaysForwardNotifications`).
    pub forward: bool,
}

/// A live node.
#[derive(Clone, Copy)]
pub struct Node {
    pub role: Role,
    pub flags: Flags,
}

/// How a node appears to an ask.
#[derive(Clone, Copy)]
pub enum Standing {
    /// It is frozen.
    Frozen,
    /// It is not frozen, and a marked source makes it late.
    Late,
    /// It is neither, and some node that it depends on is frozen or a marked source.
    Held,
    /// Neither it nor any node that it depends on is frozen or a marked source.
    Clear,
}

/// Returns whether a node is live and a watcher.
pub fn is_watcher(node: &Option<Node>) -> bool
    ensures { IsTrue result ↔ IsWatcher node.now }
{
    match node {
        None => false,
        Some(live) => live.role == Role::Watcher,
    }
}
