// The flows that are still to be paid, with their amounts.
ghost use Rattle.std.specs.Prelude.{◌≡◌, true, IsSome, IfOk, IfErr, Err, option_copied};
ghost use Rattle.std.specs.List.{All};
ghost use Rattle.flow_terms.specs.Flows.{fixed_on};
ghost use Rattle.flow_terms.specs.Ranges.{IsFlow, AreFlowsInRange};
ghost use Rattle.cash_flow_legs.specs.Amount.{views_of};
ghost use Rattle.cash_flow_legs.specs.declared.faults.FlowFault.TheVariants.{Refused};
ghost use Rattle.cash_flow_legs.specs.Live as live;

use crate::FlowFault;
use crate::amounts::amount_of;
use curve_points::CurveValue;
use day_number::Day;
use desk_names::ObjId;
use desk_terms::Cause;
use fixed_amount::Amount;
use flow_terms::{FlowTerm, FlowTerms, IndexUse};
use item_lists::Items;
use std::alloc::Global;

/// An amount that is paid on a day (QuantLib's `CashFlow`).
#[derive(Clone, Copy)]
pub struct Flow {
    pub paid: Day,
    /// At most 10^22 units of 10^-6 in size.
    pub amount: Amount,
}

/// Amounts with their days, in the order of an instrument's flows.
pub type FlowList = Items<Flow>;

/// Returns the flows of an instrument, the owner, that are paid after today and after another day, in order and with their amounts
/// (QuantLib's `CashFlows` and `Coupon::amount`). The index must be given if the terms name one, and its curve if a flow that is
/// paid after today needs a forecast.
///
/// # Errors
///
/// `Refused` with the cause of the first of these flows that is refused: that of its index's fixing, for a settlement that of its
/// period, then `TooLarge` of the owner. It is found without memory. `NoMemory` where memory runs out.
pub fn flows(
    alloc: Global,
    terms: &FlowTerms,
    today: Day,
    after: Day,
    index: Option<&IndexUse<'_>>,
    curve: Option<&CurveValue>,
    owner: ObjId,
) -> Result<FlowList, FlowFault>
    requires range { AreFlowsInRange terms.now }
    requires index { IsSome terms.now.index → IsSome index }
    requires curve { live.needs_curve (views_of (option_copied index)) terms.now.flows today ≡ true → IsSome curve }
    ensures given { let seen = views_of (option_copied index.entry) in
        live.Gives (live.live_flows seen today after (option_copied curve.entry) owner terms.now.flows) result }
    ensures cause { let seen = views_of (option_copied index.entry) in
        IfErr (live.live_flows seen today after (option_copied curve.entry) owner terms.now.flows) (λ cause. result ≡ Err (Refused cause)) }
    ensures range { IfOk result (live.AreInRange terms.now.flows) }
{
    let items = terms.flows.items();
    match first_cause(items, today, after, index, curve, owner) {
        Some(cause) => Err(FlowFault::Refused(cause)),
        None => amounts_of(alloc, items, today, after, index, curve, owner),
    }
}

// Returns the cause of the first flow that is still to be paid and is refused.
fn first_cause(
    terms: &[FlowTerm],
    today: Day,
    after: Day,
    index: Option<&IndexUse<'_>>,
    curve: Option<&CurveValue>,
    owner: ObjId,
) -> Option<Cause>
    requires range { All IsFlow terms.now }
    requires index { All (λ flow. IsSome (fixed_on flow) → IsSome index) terms.now }
    requires curve { live.needs_curve (views_of (option_copied index)) terms.now today ≡ true → IsSome curve }
    ensures { let seen = views_of (option_copied index.entry) in
        result ≡ live.cause_of (live.live_flows seen today after (option_copied curve.entry) owner terms.now) }
{
    for flow in terms {
        if is_live(flow, today, after) {
            match amount_of(flow, today, index, curve, owner) {
                Ok(_) => {}
                Err(cause) => return Some(cause),
            }
        }
    }
    None
}

// Returns the flows still to be paid, of which none is refused.
fn amounts_of(
    alloc: Global,
    terms: &[FlowTerm],
    today: Day,
    after: Day,
    index: Option<&IndexUse<'_>>,
    curve: Option<&CurveValue>,
    owner: ObjId,
) -> Result<FlowList, FlowFault>
    requires range { All IsFlow terms.now }
    requires index { All (λ flow. IsSome (fixed_on flow) → IsSome index) terms.now }
    requires curve { live.needs_curve (views_of (option_copied index)) terms.now today ≡ true → IsSome curve }
    ensures given { let seen = views_of (option_copied index.entry) in
        live.Gives (live.live_flows seen today after (option_copied curve.entry) owner terms.now) result }
    ensures range { IfOk result (live.AreInRange terms.now) }
{
    let mut flows = FlowList::new(alloc);
    for flow in terms {
        if is_live(flow, today, after) {
            let amount = amount_of(flow, today, index, curve, owner)?;
            flows.push(Flow {
                paid: flow.paid(),
                amount,
            })?;
        }
    }
    Ok(flows)
}

/// Returns whether a flow is paid after today and after another day (QuantLib's `CashFlow::hasOccurred`).
pub fn is_live(flow: &FlowTerm, today: Day, after: Day) -> bool
    ensures { result ≡ live.is_live today after flow.now }
{
    flow.paid() > today && flow.paid() > after
}
