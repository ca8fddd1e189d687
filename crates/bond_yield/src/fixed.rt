// Whether flows are those of a fixed bond.
ghost use Rattle.std.specs.Prelude.{◌≡◌};
ghost use Rattle.bond_yield.specs.Fixed as fixed;

use fixed_amount::Amount;
use flow_terms::{FlowTerm, FlowTerms, MOST_AMOUNT};

/// Whether the flows are those of a fixed bond: each is known, of 0 to 10^22 units, and none is paid before the one in
/// front of it.
pub fn is_fixed(flows: &FlowTerms) -> bool
    ensures { result ≡ fixed.is_fixed flows.now.flows }
{
    let flows = flows.flows.items();
    are_known(flows) && are_in_order(flows)
}

// Whether each flow is known, and its amount from 0 to the limit.
fn are_known(flows: &[FlowTerm]) -> bool
    ensures { result ≡ fixed.are_known flows.now }
{
    flows.iter().all(|flow| is_known(flow))
}

// Whether a flow is known, and its amount from 0 to the limit.
fn is_known(flow: &FlowTerm) -> bool
    ensures { result ≡ fixed.is_known flow.now }
{
    match flow {
        FlowTerm::Known { amount, .. } => is_payment(*amount),
        FlowTerm::Float { .. } | FlowTerm::Forward { .. } => false,
    }
}

// Whether an amount is from 0 to the limit.
fn is_payment(amount: Amount) -> bool
    ensures { result ≡ fixed.is_payment amount }
{
    let units = amount.units();
    units >= 0 && units.unsigned_abs() <= MOST_AMOUNT
}

// Whether no flow is paid before the one in front of it.
fn are_in_order(flows: &[FlowTerm]) -> bool
    ensures { result ≡ fixed.are_in_order flows.now }
{
    let Some(first) = flows.first() else {
        return true;
    };
    let mut last = first.paid();
    for flow in flows {
        let paid = flow.paid();
        if paid < last {
            return false;
        }
        last = paid;
    }
    true
}
