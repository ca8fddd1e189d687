// What an instrument of flows is.
ghost use Rattle.std.specs.Prelude.{◌≡◌};
ghost use Rattle.std.specs.List.{list_any};
ghost use Rattle.session_graph.specs.Node.{is_redemption, is_settlement, flow_kind, flows_of, flows_at};

use desk_names::ObjId;
use desk_terms::Terms;
use flow_terms::{FlowTerm, FlowTerms};
use graph_dot::FlowKind;
use lazy_objects::Desk;

// What an object is among the instruments of flows, if it is one.
pub(crate) fn flows_at(desk: &Desk, object: ObjId) -> Option<FlowKind>
    ensures { result ≡ flows_at desk.now object }
{
    match desk.terms(object) {
        None => None,
        Some(terms) => flows_of(terms),
    }
}

// The same of terms.
fn flows_of(terms: &Terms) -> Option<FlowKind>
    ensures { result ≡ flows_of terms.now }
{
    match terms {
        Terms::Quote(_)
        | Terms::Derived { .. }
        | Terms::Handle { .. }
        | Terms::Curve(_)
        | Terms::Implied { .. }
        | Terms::Index(..)
        | Terms::Engine { .. }
        | Terms::Stock { .. }
        | Terms::Composite(_) => None,
        Terms::Flows(flows, _) => Some(flow_kind(flows)),
    }
}

// A forward rate agreement is settled, a bond is redeemed, a swap is neither.
fn flow_kind(flows: &FlowTerms) -> FlowKind
    ensures { result ≡ flow_kind flows.now.flows }
{
    if is_settled(flows.flows.items()) {
        FlowKind::Agreement
    } else if is_redeemed(flows.flows.items()) {
        FlowKind::Bond
    } else {
        FlowKind::Swap
    }
}

// Whether any of these flows is the settlement of a forward rate agreement.
fn is_settled(flows: &[FlowTerm]) -> bool
    ensures { result ≡ list_any is_settlement flows.now }
{
    flows.iter().any(|flow| is_settlement(flow))
}

// Whether any of these flows is a redemption.
fn is_redeemed(flows: &[FlowTerm]) -> bool
    ensures { result ≡ list_any is_redemption flows.now }
{
    flows.iter().any(|flow| is_redemption(flow))
}

// Whether a flow is the settlement of a forward rate agreement.
fn is_settlement(flow: &FlowTerm) -> bool
    ensures { result ≡ is_settlement flow.now }
{
    match flow {
        FlowTerm::Known { .. } | FlowTerm::Float { .. } => false,
        FlowTerm::Forward { .. } => true,
    }
}

// Whether a flow is a redemption: an amount that accrues over no period.
fn is_redemption(flow: &FlowTerm) -> bool
    ensures { result ≡ is_redemption flow.now }
{
    match flow {
        FlowTerm::Known { period: None, .. } => true,
        FlowTerm::Known {
            period: Some(_),
            ..
        } => false,
        FlowTerm::Float { .. } | FlowTerm::Forward { .. } => false,
    }
}
