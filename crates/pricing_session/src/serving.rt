// Checks the objects in terms.
ghost use Rattle.std.specs.Prelude.{◌≡◌, ◌↔◌, Some, IsTrue};
ghost use Rattle.desk_terms.specs.Terms.{optional_reference, helper_references, part_references};
ghost use Rattle.desk_model.specs.Market.{kind_at};
ghost use Rattle.desk_model.specs.Links.{AreOfKind, Serve, serves_as};

use desk_names::ObjId;
use desk_terms::{HandleKind, Helper, Part, Terms, Wanted};
use lazy_objects::Desk;

// Returns whether each object in the terms is live and of the required kind.
pub(crate) fn are_served(desk: &Desk, terms: &Terms) -> bool
    ensures { IsTrue result ↔ AreOfKind desk.now.market (Some terms.now) }
{
    match terms {
        Terms::Quote(_) => true,
        Terms::Derived { first, second, .. } => {
            is_served(desk, Wanted::QuoteInput, *first)
                && is_served(desk, Wanted::QuoteInput, *second)
        }
        Terms::Handle {
            target_kind: HandleKind::Quote,
            target,
        } => is_any_served(desk, Wanted::QuoteTarget, *target),
        Terms::Handle {
            target_kind: HandleKind::Curve,
            target,
        } => is_any_served(desk, Wanted::CurveTarget, *target),
        Terms::Curve(curve) => are_quoted(desk, curve.helpers.items()),
        Terms::Implied { curve, .. } => is_served(desk, Wanted::CurveInput, *curve),
        Terms::Index(index, _) => is_served(desk, Wanted::CurveInput, index.curve),
        Terms::Engine { curve } => is_served(desk, Wanted::CurveInput, *curve),
        Terms::Stock { quote } => is_served(desk, Wanted::QuoteInput, *quote),
        Terms::Composite(parts) => are_members(desk, parts.items()),
        Terms::Flows(flows, engine) => {
            is_any_served(desk, Wanted::Engine, *engine)
                && is_any_served(desk, Wanted::Index, flows.index)
        }
    }
}

// Returns whether an object is live and of the required kind.
fn is_served(desk: &Desk, wanted: Wanted, object: ObjId) -> bool
    ensures { result ≡ serves_as (kind_at desk.now.market object) wanted }
{
    match desk.kind(object) {
        Some(kind) => kind.serves(wanted),
        None => false,
    }
}

// Returns whether an object, if there is one, is live and of the required kind.
fn is_any_served(desk: &Desk, wanted: Wanted, object: Option<ObjId>) -> bool
    ensures { IsTrue result ↔ Serve desk.now.market (optional_reference wanted object) }
{
    match object {
        Some(object) => is_served(desk, wanted, object),
        None => true,
    }
}

// Returns whether each helper has its quote.
fn are_quoted(desk: &Desk, helpers: &[Helper]) -> bool
    ensures { IsTrue result ↔ Serve desk.now.market (helper_references helpers.now) }
{
    for helper in helpers {
        if !is_served(desk, Wanted::QuoteInput, helper.quote) {
            return false;
        }
    }
    true
}

// Returns whether each part is an instrument.
fn are_members(desk: &Desk, parts: &[Part]) -> bool
    ensures { IsTrue result ↔ Serve desk.now.market (part_references parts.now) }
{
    for part in parts {
        if !is_served(desk, Wanted::Member, part.member) {
            return false;
        }
    }
    true
}
