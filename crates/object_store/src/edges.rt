// The objects that an object observes, and its role in the graph.
ghost use Rattle.std.specs.Prelude.{◌≡◌, ◌∷◌, ◌++◌, if◌then◌else◌, Some, IfOk};
ghost use Rattle.desk_terms.specs.Terms.{moves, helper_references, part_references, optional_reference};
ghost use Rattle.desk_terms.specs.declared.kind.Wanted.TheVariants.{Engine, Index};
ghost use Rattle.desk_model.specs.Market.{named, role_of};
ghost use Rattle.object_store.specs.Shape.{node_role, watched, linked, moved_by};

use desk_names::ObjId;
use desk_terms::{CurveStart, Helper, Part, Terms};
use observer_graph::Role;
use std::alloc::{AllocError, Global};

/// The evaluation date.
pub const TODAY: ObjId = ObjId(0);

/// Returns the role of an object with these terms: how it passes on a notification.
pub fn role_of(terms: &Terms) -> Role
    ensures { result ≡ node_role (role_of (Some terms.now)) }
{
    match terms {
        Terms::Quote(_) => Role::Source,
        Terms::Derived { .. } => Role::Forwarder,
        Terms::Handle { .. } => Role::Forwarder,
        Terms::Index(..) => Role::Forwarder,
        Terms::Engine { .. } => Role::Forwarder,
        Terms::Curve(_) => Role::Lazy,
        Terms::Implied { .. } => Role::Lazy,
        Terms::Stock { .. } => Role::Lazy,
        Terms::Composite(_) => Role::Lazy,
        Terms::Flows(..) => Role::Lazy,
    }
}

/// Returns the objects that an object with these terms observes, in order.
///
/// # Errors
///
/// `AllocError` where memory runs out.
pub fn watched(alloc: Global, terms: &Terms) -> Result<Vec<ObjId>, AllocError>
    ensures { IfOk result (λ objects. objects.items ≡ watched terms.now) }
{
    match terms {
        Terms::Quote(_) => Ok(Vec::new(alloc)),
        Terms::Derived { first, second, .. } => Ok(vec![in alloc; *first, *second]?),
        Terms::Handle { target, .. } => linked(alloc, *target),
        Terms::Index(index, _) => Ok(vec![in alloc; TODAY, index.curve]?),
        Terms::Engine { curve } => Ok(vec![in alloc; *curve]?),
        Terms::Curve(curve) => quotes(alloc, curve.start, curve.helpers.items()),
        Terms::Implied { curve, .. } => Ok(vec![in alloc; *curve]?),
        Terms::Stock { quote } => Ok(vec![in alloc; *quote]?),
        Terms::Composite(parts) => members(alloc, parts.items()),
        Terms::Flows(flows, engine) => priced_by(alloc, *engine, flows.index),
    }
}

// Returns the target of a handle, if it has one.
fn linked(alloc: Global, target: Option<ObjId>) -> Result<Vec<ObjId>, AllocError>
    ensures { IfOk result (λ objects. objects.items ≡ linked target) }
{
    match target {
        None => Ok(Vec::new(alloc)),
        Some(object) => Ok(vec![in alloc; object]?),
    }
}

// Returns the evaluation date, if the curve's start moves with it.
fn moved_by(alloc: Global, start: CurveStart) -> Result<Vec<ObjId>, AllocError>
    ensures { IfOk result (λ objects. objects.items ≡ moved_by start) }
{
    match start {
        CurveStart::Moving(_) => Ok(vec![in alloc; TODAY]?),
        CurveStart::Fixed(_) => Ok(Vec::new(alloc)),
    }
}

// Returns the evaluation date, if the curve's start moves with it, and the quotes of its helpers.
fn quotes(alloc: Global, start: CurveStart, helpers: &[Helper]) -> Result<Vec<ObjId>, AllocError>
    ensures { let quotes = named (helper_references helpers.now) in
        IfOk result (λ objects. objects.items ≡ if moves start then 0 ∷ quotes else quotes) }
{
    let mut quotes = moved_by(alloc, start)?;
    for helper in helpers {
        quotes.push(helper.quote)?;
    }
    Ok(quotes)
}

// Returns the evaluation date, and the engine and the index of an instrument, if it has them.
fn priced_by(
    alloc: Global,
    engine: Option<ObjId>,
    index: Option<ObjId>,
) -> Result<Vec<ObjId>, AllocError>
    ensures { IfOk result (λ objects. objects.items ≡ 0 ∷ named (optional_reference Engine engine ++ optional_reference Index index)) }
{
    let mut objects: Vec<ObjId> = vec![in alloc; TODAY]?;
    if let Some(engine) = engine {
        objects.push(engine)?;
    }
    if let Some(index) = index {
        objects.push(index)?;
    }
    Ok(objects)
}

// Returns the members of these parts.
fn members(alloc: Global, parts: &[Part]) -> Result<Vec<ObjId>, AllocError>
    ensures { IfOk result (λ members. members.items ≡ named (part_references parts.now)) }
{
    let mut members: Vec<ObjId> = Vec::new(alloc);
    for part in parts {
        members.push(part.member)?;
    }
    Ok(members)
}
