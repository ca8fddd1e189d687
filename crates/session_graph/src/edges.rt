// The edges of the graph.
ghost use Rattle.std.specs.Prelude.{◌≡◌, ◌==◌, ◌++◌, [], ◌∷◌, true, Some, IfOk, OnOk, if◌then◌else◌};
ghost use Rattle.std.specs.List.{list_any};
ghost use Rattle.desk_model.specs.Market.{each_once, edges_of, is_watcher, slot_at};
ghost use Rattle.session_graph.specs.Edges.{edge, observed, registrations_below, registration_by, is_watched, edges_by};
ghost use Rattle.session_graph.specs.Graph.{edges_in};

use desk_names::ObjId;
use desk_terms::{Kind, Terms};
use graph_dot::GraphEdge;
use lazy_objects::Desk;
use object_store::watched;
use session_core::Session;
use std::alloc::{AllocError, Global};

// The edges of each live object, by creation.
pub(crate) fn edges_of(alloc: Global, session: &Session) -> Result<Vec<GraphEdge>, AllocError>
    ensures { IfOk result (λ edges. edges.items ≡ edges_in session.now) }
{
    let mut edges = Vec::new(alloc);
    for number in 0..session.numbers() {
        push_edges(
            alloc,
            session.desk(),
            ObjId(number),
            session.numbers(),
            &mut edges,
        )?;
    }
    Ok(edges)
}

// Appends the edges of an object, with its registrations if it is a watcher.
fn push_edges(
    alloc: Global,
    desk: &Desk,
    object: ObjId,
    numbers: u32,
    edges: &mut Vec<GraphEdge>,
) -> Result<(), AllocError>
    ensures { OnOk result (edges.new.items ≡ edges.old.items ++ edges_by desk.now numbers object) }
{
    if is_watcher(desk, object) {
        return push_registrations(desk, object, numbers, edges);
    }
    match desk.terms(object) {
        None => Ok(()),
        Some(terms) => push_observed(alloc, object, terms, edges),
    }
}

// Whether an object is a watcher.
fn is_watcher(desk: &Desk, object: ObjId) -> bool
    ensures { result ≡ is_watcher (slot_at desk.now.market object) }
{
    matches!(desk.kind(object), Some(Kind::Watcher))
}

// Appends an edge to each object that an object with these terms observes.
fn push_observed(
    alloc: Global,
    object: ObjId,
    terms: &Terms,
    edges: &mut Vec<GraphEdge>,
) -> Result<(), AllocError>
    ensures { OnOk result (edges.new.items ≡ edges.old.items ++ observed object (edges_of (Some terms.now))) }
{
    let subjects = subjects_of(alloc, terms)?;
    push_each(object, subjects.as_slice(), edges)
}

/// The objects that an object with these terms observes, each once, in the order of its edges.
pub fn subjects_of(alloc: Global, terms: &Terms) -> Result<Vec<ObjId>, AllocError>
    ensures { IfOk result (λ subjects. subjects.items ≡ edges_of (Some terms.now)) }
{
    let named = watched(alloc, terms)?;
    each_once(alloc, named.as_slice())
}

// Appends an edge from an object to each of these.
fn push_each(
    object: ObjId,
    subjects: &[ObjId],
    edges: &mut Vec<GraphEdge>,
) -> Result<(), AllocError>
    ensures { OnOk result (edges.new.items ≡ edges.old.items ++ observed object subjects.now) }
{
    for subject in subjects {
        push_edge(object, *subject, false, edges)?;
    }
    Ok(())
}

// Appends an edge.
fn push_edge(
    observer: ObjId,
    subject: ObjId,
    is_registration: bool,
    edges: &mut Vec<GraphEdge>,
) -> Result<(), AllocError>
    ensures { OnOk result (edges.new.items ≡ edges.old.items ++ edge is_registration observer subject ∷ []) }
{
    edges.push(GraphEdge {
        observer,
        subject,
        is_registration,
    })?;
    Ok(())
}

// Each of these objects at its first place alone.
fn each_once(alloc: Global, objects: &[ObjId]) -> Result<Vec<ObjId>, AllocError>
    ensures { IfOk result (λ once. once.items ≡ each_once objects.now) }
{
    let mut once = Vec::new(alloc);
    let mut at: usize = 0;
    while at < objects.len() {
        push_new(&objects[..at], objects[at], &mut once)?;
        at += 1;
    }
    Ok(once)
}

// Appends an object, unless it is among those before it.
fn push_new(before: &[ObjId], object: ObjId, objects: &mut Vec<ObjId>) -> Result<(), AllocError>
    ensures { OnOk result (objects.new.items ≡ objects.old.items
        ++ (if list_any (λ other. other == object) before.now then [] else object ∷ [])) }
{
    if !has(before, object) {
        objects.push(object)?;
    }
    Ok(())
}

// Whether an object is among others.
fn has(objects: &[ObjId], object: ObjId) -> bool
    ensures { result ≡ list_any (λ other. other == object) objects.now }
{
    objects.iter().any(|other| *other == object)
}

// Appends an edge to each object with which a watcher is registered, by creation.
fn push_registrations(
    desk: &Desk,
    watcher: ObjId,
    numbers: u32,
    edges: &mut Vec<GraphEdge>,
) -> Result<(), AllocError>
    requires { is_watcher (slot_at desk.now.market watcher) ≡ true }
    ensures { OnOk result (edges.new.items ≡ edges.old.items ++ registrations_below desk.now watcher numbers) }
{
    for number in 0..numbers {
        push_registration(desk, watcher, ObjId(number), edges)?;
    }
    Ok(())
}

// Appends an edge to an object, if a watcher is registered with it.
fn push_registration(
    desk: &Desk,
    watcher: ObjId,
    object: ObjId,
    edges: &mut Vec<GraphEdge>,
) -> Result<(), AllocError>
    requires { is_watcher (slot_at desk.now.market watcher) ≡ true }
    ensures { OnOk result (edges.new.items ≡ edges.old.items ++ registration_by desk.now watcher object) }
{
    if is_watched(desk, watcher, object) {
        push_edge(watcher, object, true, edges)?;
    }
    Ok(())
}

// Whether an object is one that may be observed, and a watcher is registered with it.
fn is_watched(desk: &Desk, watcher: ObjId, object: ObjId) -> bool
    requires { is_watcher (slot_at desk.now.market watcher) ≡ true }
    ensures { result ≡ is_watched desk.now watcher object }
{
    match desk.kind(object) {
        None => false,
        Some(Kind::Watcher) => false,
        Some(
            Kind::Today
            | Kind::Quote
            | Kind::Derived
            | Kind::QuoteHandle
            | Kind::CurveHandle
            | Kind::Index
            | Kind::Engine
            | Kind::Curve
            | Kind::Implied
            | Kind::Stock
            | Kind::Composite
            | Kind::Flows,
        ) => desk.is_registered(watcher, object),
    }
}
