// The spread of a bond over a curve.
ghost use Rattle.std.specs.Prelude.{◌≡◌, true, length, ◌<◌, ◌≤◌, ◌*◌, ◌^◌, pos, unsigned_abs, Ok, IfOk};
ghost use Rattle.fixed_amount.specs.Rounding.{closest};
ghost use Rattle.flow_terms.specs.declared.limits.TheConstants.{MOST_AMOUNT, MOST_FLOWS};
ghost use Rattle.flow_terms.specs.Ranges.{AreFlowsInRange};
ghost use Rattle.bond_yield.specs.Fixed.{is_known, are_known, is_fixed};
ghost use Rattle.bond_yield.specs.Price.{amount_of};
ghost use Rattle.bond_spread.specs.Spread as spread;

use bond_yield::{YieldFault, yield_at};
use curve_points::{CurveValue, PointFault, discount};
use day_number::Day;
use fixed_amount::{Amount, Discount, Rate, Rounding, div_round};
use flow_terms::{FlowTerm, FlowTermList, FlowTerms, MOST_AMOUNT};
use std::alloc::{AllocError, Global};
use thiserror::Error;

/// Why a bond has no spread over a curve; the first in this order, of the settlement day and then of the flows.
#[derive(Clone, Copy, Debug, PartialEq, Eq, Error)]
pub enum SpreadFault {
    /// This day is before the curve.
    #[error("a day before the curve")]
    Before(Day),
    /// This day is past the curve.
    #[error("a day past the curve")]
    Past(Day),
    /// A flow by the curve is beyond 10^22 units.
    #[error("a flow by the curve is too large")]
    TooLarge,
    /// The price asked is above this one, that at a spread of 0.
    #[error("the price is above that at a spread of 0")]
    Above(Amount),
    /// The price asked is below this one, that at the greatest spread, 10.
    #[error("the price is below that at the greatest spread")]
    Below(Amount),
}

/// The spread of a fixed bond over a curve on a settlement day at a full price, in units of 10^-9: the least from 0 to 10 at which
/// its flows by the curve, each divided by what 1 grows to at simple interest over Act/365 from one payment day to the next, are worth no more.
pub fn spread(
    alloc: Global,
    flows: &FlowTerms,
    settle: Day,
    curve: &CurveValue,
    price: Amount,
) -> Result<Result<Rate, SpreadFault>, AllocError>
    requires range { AreFlowsInRange flows.now }
    requires fixed { is_fixed flows.now.flows ≡ true }
    ensures { IfOk result (λ found. found ≡ spread.spread_of curve.now flows.now.flows settle price) }
{
    let base = match discount(curve, settle) {
        Ok(base) => base,
        Err(fault) => return Ok(Err(off_curve(fault, settle))),
    };
    match discounted(alloc, flows.flows.items(), settle, base, curve)? {
        Ok(flows) => Ok(spread_over(flows.items(), settle, price)),
        Err(fault) => Ok(Err(fault)),
    }
}

// The fault of a day at which a curve has no factor.
fn off_curve(fault: PointFault, day: Day) -> SpreadFault
    ensures { result ≡ spread.off_curve fault day }
{
    match fault {
        PointFault::Before => SpreadFault::Before(day),
        PointFault::Past => SpreadFault::Past(day),
    }
}

// The spread of discounted flows.
fn spread_over(flows: &[FlowTerm], settle: Day, price: Amount) -> Result<Rate, SpreadFault>
    requires known { are_known flows.now ≡ true }
    requires count { length flows.now ≤ MOST_FLOWS }
    ensures { result ≡ spread.spread_over settle price (Ok flows.now) }
{
    met(yield_at(flows, settle, price))
}

// The spread that is a yield of discounted flows.
fn met(found: Result<Rate, YieldFault>) -> Result<Rate, SpreadFault>
    ensures { result ≡ spread.met found }
{
    match found {
        Ok(rate) => Ok(rate),
        Err(fault) => Err(unmet(fault)),
    }
}

// Why discounted flows have no yield.
fn unmet(fault: YieldFault) -> SpreadFault
    ensures { result ≡ spread.unmet fault }
{
    match fault {
        YieldFault::Above(price) => SpreadFault::Above(price),
        YieldFault::Below(price) => SpreadFault::Below(price),
        YieldFault::NotFixed => SpreadFault::TooLarge,
        YieldFault::NoFlow => SpreadFault::TooLarge,
    }
}

// Flows by the curve alone, or the first fault.
fn discounted(
    alloc: Global,
    flows: &[FlowTerm],
    settle: Day,
    base: Discount,
    curve: &CurveValue,
) -> Result<Result<FlowTermList, SpreadFault>, AllocError>
    requires known { are_known flows.now ≡ true }
    ensures value { IfOk result (λ found. found ≡ spread.discounted curve.now settle base flows.now) }
    ensures known { IfOk result (λ found. IfOk found (λ list. are_known list ≡ true)) }
    ensures count { IfOk result (λ found. IfOk found (λ list. length list ≡ length flows.now)) }
{
    let mut list = FlowTermList::new(alloc);
    for flow in flows {
        match discounted_flow(flow, settle, base, curve) {
            Ok(flow) => list.push(flow)?,
            Err(fault) => return Ok(Err(fault)),
        }
    }
    Ok(Ok(list))
}

// A flow by the curve alone.
fn discounted_flow(
    flow: &FlowTerm,
    settle: Day,
    base: Discount,
    curve: &CurveValue,
) -> Result<FlowTerm, SpreadFault>
    requires known { is_known flow.now ≡ true }
    ensures value { result ≡ spread.discounted_flow curve.now settle base flow.now }
    ensures known { IfOk result (λ flow. is_known flow ≡ true) }
{
    if flow.paid() <= settle {
        return Ok(*flow);
    }
    match discount(curve, flow.paid()) {
        Ok(factor) => payment(flow.paid(), by_factor(flow, factor, base)),
        Err(fault) => Err(off_curve(fault, flow.paid())),
    }
}

// The amount of a flow times its factor, divided by that of the settlement day: at most 4 * 10^34 units.
fn by_factor(flow: &FlowTerm, factor: Discount, base: Discount) -> u128
    requires { is_known flow.now ≡ true }
    ensures { pos result ≡ closest (pos (amount_of flow.now * unsigned_abs factor)) (unsigned_abs base) }
{
    nearest(amount_of(flow) * units_of(factor), units_of(base))
}

// The units of a factor.
fn units_of(factor: Discount) -> u128
    ensures value { result ≡ unsigned_abs factor }
    ensures low { 1 ≤ result }
    ensures high { result ≤ 4 * 10 ^ 12 }
{
    u128::from(factor.units().unsigned_abs())
}

// The units of the amount of a known flow; 0 of another.
fn amount_of(flow: &FlowTerm) -> u128
    requires { is_known flow.now ≡ true }
    ensures value { result ≡ amount_of flow.now }
    ensures bound { result ≤ MOST_AMOUNT }
{
    match flow {
        FlowTerm::Known { amount, .. } => amount.units().unsigned_abs(),
        FlowTerm::Float { .. } | FlowTerm::Forward { .. } => 0,
    }
}

// A quotient rounded to the nearest whole number, a half up.
fn nearest(num: u128, den: u128) -> u128
    requires high { num < 2 ^ 127 }
    requires low { 1 ≤ den }
    requires small { den < 2 ^ 127 }
    ensures { pos result ≡ closest (pos num) den }
{
    div_round(num as i128, den as i128, Rounding::Closest) as u128
}

// A payment, where its amount is within the limit of a flow.
fn payment(paid: Day, amount: u128) -> Result<FlowTerm, SpreadFault>
    ensures value { result ≡ spread.payment paid (pos amount) }
    ensures known { IfOk result (λ flow. is_known flow ≡ true) }
{
    if amount > MOST_AMOUNT {
        return Err(SpreadFault::TooLarge);
    }
    Ok(FlowTerm::Known {
        paid,
        amount: Amount(amount as i128),
        period: None,
    })
}
