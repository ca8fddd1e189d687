// The objects of an explanation, and their order.
ghost use Rattle.std.specs.Prelude.{◌≡◌, ◌<◌, ◌++◌, [], length, reverse, OnOk};
ghost use Rattle.desk_model.specs.Market.{edges, is_lazy};
ghost use Rattle.desk_model.specs.Links.{is_lazy_at};
ghost use Rattle.desk_terms.specs.Kind.{role};
ghost use Rattle.why_model.specs.Listing.{shows_last, rests_on, listing};

use desk_names::ObjId;
use desk_terms::Kind;
use indexmap::IndexSet;
use lazy_objects::Desk;
use session_core::Session;
use session_graph::subjects_of;
use std::alloc::{AllocError, Global};

// Lists the numbers of an object of a session and of those that it depends on, depth first, each once.
pub(crate) fn list_all(
    alloc: Global,
    session: &mut Session,
    object: ObjId,
    list: &mut IndexSet<u32>,
) -> Result<(), AllocError>
    requires within { object < length session.old.state.market.objects }
    requires empty { list.old.keys ≡ [] }
    ensures list { OnOk result (list.new.keys ≡ listing session.old.state object) }
    ensures same { session.new ≡ session.old }
{
    list_beneath(alloc, &mut session.desk, object, list)
}

// Does the same over the objects alone.
fn list_beneath(
    alloc: Global,
    desk: &mut Desk,
    object: ObjId,
    list: &mut IndexSet<u32>,
) -> Result<(), AllocError>
    requires within { object < length desk.old.market.objects }
    requires empty { list.old.keys ≡ [] }
    ensures list { OnOk result (list.new.keys ≡ listing desk.old object) }
    ensures same { desk.new ≡ desk.old }
{
    desk.shape();
    let mut waiting: Vec<ObjId> = Vec::new(alloc);
    waiting.push(object)?;
    while let Some(next) = waiting.pop() {
        let (_, is_new) = list.insert_full(next.0)?;
        if is_new {
            push_rest(alloc, desk, next, &mut waiting)?;
        }
    }
    Ok(())
}

// Puts the objects that a value depends on onto a stack, the first on top.
fn push_rest(
    alloc: Global,
    desk: &mut Desk,
    object: ObjId,
    waiting: &mut Vec<ObjId>,
) -> Result<(), AllocError>
    ensures waiting { OnOk result (waiting.new.items
        ≡ waiting.old.items ++ reverse (rests_on desk.old object)) }
    ensures same { desk.new ≡ desk.old }
{
    if shows_last(desk, object) {
        return Ok(());
    }
    push_edges(alloc, desk, object, waiting)
}

// Returns whether a priced object shows its last value without a computation: it is frozen or late.
fn shows_last(desk: &mut Desk, object: ObjId) -> bool
    ensures answer { result ≡ shows_last desk.old object }
    ensures same { desk.new ≡ desk.old }
{
    if !is_priced(desk, object) {
        return false;
    }
    desk.shape();
    desk.marks(object).frozen || desk.late(object).is_some()
}

// Returns whether an object is priced.
pub(crate) fn is_priced(desk: &Desk, object: ObjId) -> bool
    ensures { result ≡ is_lazy_at desk.now.market object }
{
    match desk.kind(object) {
        None => false,
        Some(kind) => is_priced_kind(kind),
    }
}

fn is_priced_kind(kind: Kind) -> bool
    ensures { result ≡ is_lazy (role kind) }
{
    match kind {
        Kind::Curve | Kind::Implied | Kind::Stock | Kind::Composite | Kind::Flows => true,
        Kind::Today
        | Kind::Quote
        | Kind::Derived
        | Kind::QuoteHandle
        | Kind::CurveHandle
        | Kind::Index
        | Kind::Engine
        | Kind::Watcher => false,
    }
}

// Puts the objects that an object observes onto a stack, the first on top.
fn push_edges(
    alloc: Global,
    desk: &Desk,
    object: ObjId,
    waiting: &mut Vec<ObjId>,
) -> Result<(), AllocError>
    ensures { OnOk result (waiting.new.items ≡ waiting.old.items ++ reverse (edges desk.now.market object)) }
{
    match desk.terms(object) {
        None => Ok(()),
        Some(terms) => {
            let subjects = subjects_of(alloc, terms)?;
            push_reversed(subjects.as_slice(), waiting)
        }
    }
}

// Puts objects onto a stack, the first on top.
fn push_reversed(objects: &[ObjId], waiting: &mut Vec<ObjId>) -> Result<(), AllocError>
    ensures { OnOk result (waiting.new.items ≡ waiting.old.items ++ reverse objects.now) }
{
    let mut at = objects.len();
    while at > 0 {
        at -= 1;
        waiting.push(objects[at])?;
    }
    Ok(())
}
