// Sends notifications: a worklist that is filled until no node waits, and the effect on each node.
ghost use Rattle.std.specs.Prelude.{◌≡◌, ◌↔◌, ◌⊎◌, ◌<◌, ◌≤◌, ◌+◌, ℕ, Bool, List, [], Option, IfNone, IfSome, is_some, length, true, None, Some, slice_index_or};
ghost use Rattle.std.specs.VecDeque.{deque_capacity};
ghost use Rattle.walks.specs.Walk.{Among};
ghost use Rattle.edge_lists.specs.EdgesView.{IsPair, IsWhole, subject_lists};
ghost use Rattle.wave_queue.specs.Thread.{is_marked};
ghost use Rattle.observer_graph.specs.declared.node.Node.{Node};
ghost use Rattle.observer_graph.specs.declared.node.Role.TheVariants.{Lazy, Watcher};
ghost use Rattle.observer_graph.specs.Notice.{IsTold, passes_as, passes_of, unsettled};
ghost use Rattle.observer_graph.specs.GraphView.{IsWatcher};
ghost use Rattle.observer_graph.specs.Noticed.{AreNoticed, IsRising, with_number};
ghost use Rattle.observer_graph.specs.Puts.{Puts, carrying};
ghost use Rattle.observer_graph.specs.Telling.{IsDone, IsFirstPair, Spreads};
ghost use Rattle.observer_graph.specs.Turns.{IsFree, IsMarkedBelow};
ghost use Rattle.observer_graph.specs.Walks.{graph_of};

use crate::node::{Flags, Node, Role};
use crate::node_set::NodeSet;
use crate::rising::put_in;
use desk_names::ObjId;
use edge_lists::{EdgeId, Edges};
use std::collections::VecDeque;
use wave_queue::Wave;

/// Sends a notification from the sources: each node that it reaches is out of date, and the watchers among them are remembered.
/// Fills the free wave with the nodes that pass it on to someone. Visits each pair of a source and of a node that passes it on
/// once, and those of a source that is notified and passes it on twice.
pub fn tell_all(
    edges: &Edges,
    nodes: &mut [Option<Node>],
    sources: &NodeSet,
    wave: &mut Wave,
    noticed: &mut VecDeque<ObjId>,
)
    requires whole { IsWhole edges.now }
    requires nodes { length nodes.old ≡ length edges.now.nodes }
    requires sources { length sources.now.marks ≡ length edges.now.nodes }
    requires wave { IsFree (length edges.now.nodes) wave.old }
    requires noticed { AreNoticed noticed.old.items (length nodes.old) }
    requires room { length nodes.old ≤ deque_capacity noticed.old }
    ensures told { (o : ℕ) → (IsTold (graph_of nodes.old (subject_lists edges.now) sources.now.marks) o
        × (slice_index_or nodes.new o None ≡ unsettled (slice_index_or nodes.old o None)))
        ⊎ ((IsTold (graph_of nodes.old (subject_lists edges.now) sources.now.marks) o → ⊥)
        × (slice_index_or nodes.new o None ≡ slice_index_or nodes.old o None)) }
    ensures watchers { (w : ℕ) → Among w noticed.new.items ↔ (Among w noticed.old.items
        ⊎ (IsWatcher (slice_index_or nodes.old w None)
        × IsTold (graph_of nodes.old (subject_lists edges.now) sources.now.marks) w)) }
    ensures noticed { AreNoticed noticed.new.items (length nodes.old) }
    ensures capacity { deque_capacity noticed.old ≤ deque_capacity noticed.new }
    ensures len { length wave.new.marks ≡ length wave.old.marks }
{
    tell_first(edges, nodes, sources, wave, noticed);
    pass_on(edges, nodes, sources, wave, noticed);
}

// Notifies the observers of each source.
fn tell_first(
    edges: &Edges,
    nodes: &mut [Option<Node>],
    sources: &NodeSet,
    wave: &mut Wave,
    noticed: &mut VecDeque<ObjId>,
)
    requires whole { IsWhole edges.now }
    requires nodes { length nodes.old ≡ length edges.now.nodes }
    requires sources { length sources.now.marks ≡ length edges.now.nodes }
    requires wave { IsFree (length edges.now.nodes) wave.old }
    requires noticed { AreNoticed noticed.old.items (length nodes.old) }
    requires room { length nodes.old ≤ deque_capacity noticed.old }
    ensures spreads { Spreads edges.now sources.now.marks nodes.old noticed.old.items (λ x o. ⊥) nodes.new wave.new
        noticed.new.items }
    ensures starts { (x o : ℕ) → IsPair edges.now x o → is_marked sources.now.marks x ≡ true
        → IsDone edges.now nodes.old nodes.new wave.new noticed.new.items o }
    ensures below { IsMarkedBelow (length edges.now.nodes) wave.new }
    ensures noticed { AreNoticed noticed.new.items (length nodes.old) }
    ensures capacity { deque_capacity noticed.old ≤ deque_capacity noticed.new }
    ensures len { length wave.new.marks ≡ length wave.old.marks }
{
    for source in sources.items() {
        let mut first = edges.first_observer(*source);
        tell_observers(edges, *source, &mut first, false, nodes, wave, noticed);
    }
}

// Notifies the observers of each waiting node, until none waits.
fn pass_on(
    edges: &Edges,
    nodes: &mut [Option<Node>],
    sources: &NodeSet,
    wave: &mut Wave,
    noticed: &mut VecDeque<ObjId>,
)
    requires whole { IsWhole edges.now }
    requires nodes { length nodes.old ≡ length edges.now.nodes }
    requires wave { length nodes.old ≤ length wave.old.marks }
    requires below { IsMarkedBelow (length edges.now.nodes) wave.old }
    requires noticed { AreNoticed noticed.old.items (length nodes.old) }
    requires room { length nodes.old ≤ deque_capacity noticed.old }
    ensures spreads { (first : List (Option Node)) (noted : List ℕ)
        → Spreads edges.now sources.now.marks first noted (λ x o. ⊥) nodes.old wave.old noticed.old.items
        → Spreads edges.now sources.now.marks first noted (λ x o. ⊥) nodes.new wave.new noticed.new.items }
    ensures stays { (first : List (Option Node)) (o : ℕ) → IsDone edges.now first nodes.old wave.old noticed.old.items o
        → IsDone edges.now first nodes.new wave.new noticed.new.items o }
    ensures end { wave.new.waiting ≡ [] }
    ensures noticed { AreNoticed noticed.new.items (length nodes.old) }
    ensures capacity { deque_capacity noticed.old ≤ deque_capacity noticed.new }
    ensures len { length wave.new.marks ≡ length wave.old.marks }
{
    let mut first: Option<EdgeId> = None;
    let mut next = next_of(edges, None, &mut first, wave);
    while let Some(told) = next {
        let carried = tell_observers(edges, told, &mut first, true, nodes, wave, noticed);
        next = next_of(edges, carried, &mut first, wave);
    }
}

// Returns the carried node, or else the first that waits, with the first of its pairs.
fn next_of(
    edges: &Edges,
    carried: Option<ObjId>,
    first: &mut Option<EdgeId>,
    wave: &mut Wave,
) -> Option<ObjId>
    requires marked { IfSome carried (λ o. is_marked (carrying carried wave.old).marks o ≡ true) }
    requires below { IsMarkedBelow (length edges.now.nodes) wave.old }
    requires first { IfSome carried (λ o. IsFirstPair edges.now o first.old) }
    ensures first { IfSome result (λ o. IsFirstPair edges.now o first.new) }
    ensures end { IfNone result ((carrying carried wave.old ≡ wave.new) × (wave.new.waiting ≡ [])) }
    ensures marks { wave.new.marks ≡ (carrying carried wave.old).marks }
    ensures marked { IfSome result (λ o. is_marked wave.new.marks o ≡ true) }
    ensures taken { IfSome result (λ o. (x : ℕ) → Among x (carrying carried wave.old).waiting
        → (x ≡ o) ⊎ Among x wave.new.waiting) }
    ensures load { IfSome result (λ o. length (carrying carried wave.old).waiting ≡ length wave.new.waiting + 1) }
{
    match carried {
        Some(node) => Some(node),
        None => aim(edges, wave.pop(), first),
    }
}

// Returns a node that waited, with the first of its pairs.
fn aim(edges: &Edges, popped: Option<ObjId>, first: &mut Option<EdgeId>) -> Option<ObjId>
    requires { IfSome popped (λ o. o < length edges.now.nodes) }
    ensures same { result ≡ popped }
    ensures first { IfSome popped (λ o. IsFirstPair edges.now o first.new) }
{
    match popped {
        Some(node) => {
            *first = edges.first_observer(node);
            Some(node)
        }
        None => None,
    }
}

// Notifies the observers of a node. The last of them may be carried: it is the next node to go on from, and does not wait.
#[inline(always)]
fn tell_observers(
    edges: &Edges,
    from: ObjId,
    first: &mut Option<EdgeId>,
    carries: bool,
    nodes: &mut [Option<Node>],
    wave: &mut Wave,
    noticed: &mut VecDeque<ObjId>,
) -> Option<ObjId>
    requires whole { IsWhole edges.now }
    requires nodes { length nodes.old ≡ length edges.now.nodes }
    requires first { IsFirstPair edges.now from first.old }
    requires wave { length nodes.old ≤ length wave.old.marks }
    requires noticed { AreNoticed noticed.old.items (length nodes.old) }
    requires room { length nodes.old ≤ deque_capacity noticed.old }
    ensures spreads { (sources : List Bool) (first : List (Option Node)) (noted : List ℕ)
        → Spreads edges.now sources first noted (λ x o. x ≡ from) nodes.old wave.old noticed.old.items
        → ((o : ℕ) → IsPair edges.now from o → IsTold (graph_of first (subject_lists edges.now) sources) o)
        → Spreads edges.now sources first noted (λ x o. ⊥) nodes.new (carrying result wave.new) noticed.new.items
        × ((o : ℕ) → IsPair edges.now from o
        → IsDone edges.now first nodes.new (carrying result wave.new) noticed.new.items o) }
    ensures stays { (first : List (Option Node)) (o : ℕ) → IsDone edges.now first nodes.old wave.old noticed.old.items o
        → IsDone edges.now first nodes.new (carrying result wave.new) noticed.new.items o }
    ensures puts { Puts wave.old (carrying result wave.new) (λ o. IsPair edges.now from o) }
    ensures carried { IfSome result (λ o. carries ≡ true) }
    ensures marked { IfSome result (λ o. is_marked (carrying result wave.new).marks o ≡ true) }
    ensures first { IfSome result (λ o. IsFirstPair edges.now o first.new) }
    ensures noticed { AreNoticed noticed.new.items (length nodes.old) }
    ensures capacity { deque_capacity noticed.old ≤ deque_capacity noticed.new }
{
    let mut carried: Option<ObjId> = None;
    let mut at = *first;
    while let Some(edge) = at {
        let (observer, next) = edges.observer_and_next(edge);
        let is_last = ends_walk(carries, &next);
        carried = tell_one(edges, observer, is_last, first, nodes, wave, noticed);
        at = next;
    }
    carried
}

// Returns whether a node may be carried: no pair follows it.
fn ends_walk(carries: bool, next: &Option<EdgeId>) -> bool
    ensures { result ≡ true → (carries ≡ true) × (next.now ≡ None) }
{
    carries && next.is_none()
}

// Notifies a node: it is out of date, is remembered if it is a watcher, and waits if it passes the notification on to someone and
// was not marked. The last node is carried instead.
#[inline(always)]
fn tell_one(
    edges: &Edges,
    told: ObjId,
    is_last: bool,
    first: &mut Option<EdgeId>,
    nodes: &mut [Option<Node>],
    wave: &mut Wave,
    noticed: &mut VecDeque<ObjId>,
) -> Option<ObjId>
    requires whole { IsWhole edges.now }
    requires nodes { length nodes.old ≡ length edges.now.nodes }
    requires told { told < length edges.now.nodes }
    requires wave { length nodes.old ≤ length wave.old.marks }
    requires noticed { AreNoticed noticed.old.items (length nodes.old) }
    requires room { length nodes.old ≤ deque_capacity noticed.old }
    ensures spreads { (sources : List Bool) (first : List (Option Node)) (noted : List ℕ) (from : ℕ) (ahead : List ℕ)
        → Spreads edges.now sources first noted (λ x o. (x ≡ from) × Among o ahead) nodes.old wave.old noticed.old.items
        → IsTold (graph_of first (subject_lists edges.now) sources) told
        → Spreads edges.now sources first noted (λ x o. (x ≡ from) × Among o ahead) nodes.new (carrying result wave.new)
        noticed.new.items
        × IsDone edges.now first nodes.new (carrying result wave.new) noticed.new.items told }
    ensures stays { (first : List (Option Node)) (o : ℕ) → IsDone edges.now first nodes.old wave.old noticed.old.items o
        → IsDone edges.now first nodes.new (carrying result wave.new) noticed.new.items o }
    ensures puts { Puts wave.old (carrying result wave.new) (λ o. o ≡ told) }
    ensures carried { IfSome result (λ o. is_last ≡ true) }
    ensures marked { IfSome result (λ o. is_marked (carrying result wave.new).marks o ≡ true) }
    ensures first { IfSome result (λ o. IsFirstPair edges.now o first.new) }
    ensures noticed { AreNoticed noticed.new.items (length nodes.old) }
    ensures capacity { deque_capacity noticed.old ≤ deque_capacity noticed.new }
{
    let goes_on = take_notice(&mut nodes[told.place()], told, noticed);
    put_passing(edges, goes_on, told, is_last, first, wave)
}

// Carries an unmarked node that passes the notification on to someone, if it is the last, and else lets it wait.
fn put_passing(
    edges: &Edges,
    goes_on: bool,
    told: ObjId,
    is_last: bool,
    first: &mut Option<EdgeId>,
    wave: &mut Wave,
) -> Option<ObjId>
    requires told { told < length edges.now.nodes }
    requires room { told < length wave.old.marks }
    ensures puts { Puts wave.old (carrying result wave.new) (λ o. (o ≡ told) × (goes_on ≡ true)) }
    ensures done { goes_on ≡ true
        → (is_marked (carrying result wave.new).marks told ≡ true) ⊎ ((p : ℕ) → IsPair edges.now told p → ⊥) }
    ensures carried { IfSome result (λ o. is_last ≡ true) }
    ensures marked { IfSome result (λ o. is_marked (carrying result wave.new).marks o ≡ true) }
    ensures first { IfSome result (λ o. IsFirstPair edges.now o first.new) }
{
    match first_passed(edges, goes_on, told) {
        Some(edge) => {
            *first = Some(edge);
            carry_or_put(told, is_last, wave)
        }
        None => None,
    }
}

// Carries an unmarked node if it is the last, and else lets it wait.
fn carry_or_put(told: ObjId, is_last: bool, wave: &mut Wave) -> Option<ObjId>
    requires { told < length wave.old.marks }
    ensures puts { Puts wave.old (carrying result wave.new) (λ o. o ≡ told) }
    ensures done { is_marked (carrying result wave.new).marks told ≡ true }
    ensures carried { IfSome result (λ o. is_last ≡ true) }
    ensures marked { IfSome result (λ o. is_marked (carrying result wave.new).marks o ≡ true) }
    ensures same { IfSome result (λ o. o ≡ told) }
{
    if is_last {
        carry(told, wave)
    } else {
        wave.push(told);
        None
    }
}

// Marks a node, and carries it if it was not marked.
fn carry(told: ObjId, wave: &mut Wave) -> Option<ObjId>
    requires { told < length wave.old.marks }
    ensures puts { Puts wave.old (carrying result wave.new) (λ o. o ≡ told) }
    ensures done { is_marked (carrying result wave.new).marks told ≡ true }
    ensures marked { IfSome result (λ o. is_marked (carrying result wave.new).marks o ≡ true) }
    ensures same { IfSome result (λ o. o ≡ told) }
{
    if wave.mark(told) { Some(told) } else { None }
}

// Returns the first pair by which a notified node passes the notification on, if it does and someone observes it.
fn first_passed(edges: &Edges, goes_on: bool, told: ObjId) -> Option<EdgeId>
    requires { told < length edges.now.nodes }
    ensures some { is_some result ≡ true → goes_on ≡ true }
    ensures first { is_some result ≡ true → IsFirstPair edges.now told result }
    ensures none { result ≡ None → goes_on ≡ true → (o : ℕ) → IsPair edges.now told o → ⊥ }
{
    if goes_on {
        edges.first_observer(told)
    } else {
        None
    }
}

// Marks a notified node as out of date, remembers it if it is a watcher, and returns whether it passes the notification on.
#[inline(always)]
fn take_notice(node: &mut Option<Node>, told: ObjId, noticed: &mut VecDeque<ObjId>) -> bool
    requires rising { IsRising noticed.old.items }
    requires room { length (with_number told noticed.old.items) ≤ deque_capacity noticed.old }
    ensures passes { result ≡ passes_of node.old }
    ensures node { node.new ≡ unsettled node.old }
    ensures watcher { (IsWatcher node.old × (noticed.new.items ≡ with_number told noticed.old.items))
        ⊎ ((IsWatcher node.old → ⊥) × (noticed.new.items ≡ noticed.old.items)) }
    ensures room { deque_capacity noticed.old ≤ deque_capacity noticed.new }
{
    match node {
        None => false,
        Some(live) => {
            if live.role == Role::Lazy {
                let goes_on = passes_lazy(&live.flags);
                live.flags.current = false;
                goes_on
            } else {
                take_live(live, told, noticed)
            }
        }
    }
}

// Does the same for a live node. It is a function of its own, since most notified nodes are lazy.
#[inline(never)]
fn take_live(live: &mut Node, told: ObjId, noticed: &mut VecDeque<ObjId>) -> bool
    requires rising { IsRising noticed.old.items }
    requires room { length (with_number told noticed.old.items) ≤ deque_capacity noticed.old }
    ensures passes { result ≡ passes_as live.old.role live.old.flags }
    ensures node { Some live.new ≡ unsettled (Some live.old) }
    ensures watcher { ((live.old.role ≡ Watcher) × (noticed.new.items ≡ with_number told noticed.old.items))
        ⊎ ((live.old.role ≡ Watcher → ⊥) × (noticed.new.items ≡ noticed.old.items)) }
    ensures room { deque_capacity noticed.old ≤ deque_capacity noticed.new }
{
    let goes_on = passes(live);
    live.flags.current = false;
    if live.role == Role::Watcher {
        put_in(noticed, told);
    }
    goes_on
}

// Returns whether a notified node passes the notification on.
fn passes(live: &Node) -> bool
    ensures { result ≡ passes_as live.now.role live.now.flags }
{
    match live.role {
        Role::Source => false,
        Role::Forwarder => true,
        Role::Lazy => passes_lazy(&live.flags),
        Role::Watcher => false,
    }
}

// Returns whether a notified lazy node passes the notification on.
fn passes_lazy(flags: &Flags) -> bool
    ensures { result ≡ passes_as Lazy flags.now }
{
    !flags.frozen && (flags.current || flags.forward)
}

/// Marks a node as out of date.
pub fn unsettle_one(node: &mut Option<Node>)
    ensures { node.new ≡ unsettled node.old }
{
    if let Some(live) = node {
        live.flags.current = false;
    }
}
