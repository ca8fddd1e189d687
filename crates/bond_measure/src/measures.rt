// The measures of a bond.
ghost use Rattle.std.specs.Prelude.{◌≡◌, true, ◌≤◌, ◌*◌, ◌^◌, ◌≤ℤ◌, ◌<ℤ◌, ◌+ℤ◌, ◌-ℤ◌, ◌*ℤ◌, pos, unsigned_abs};
ghost use Rattle.flow_terms.specs.declared.limits.TheConstants.{MOST_AMOUNT, MOST_FLOWS};
ghost use Rattle.flow_terms.specs.Ranges.{AreFlowsInRange};
ghost use Rattle.bond_yield.specs.declared.yields.TheConstants.{MOST_YIELD};
ghost use Rattle.bond_yield.specs.Fixed.{is_fixed};
ghost use Rattle.bond_measure.specs.Measures as measure;

use crate::prices::price_at;
use bond_yield::MOST_YIELD;
use day_number::Day;
use fixed_amount::{Amount, Rounding, div_round};
use flow_terms::FlowTerms;
use thiserror::Error;

// A basis point, in units of a yield.
const STEP: u64 = 100_000;

/// Why a bond has no measure at a yield; the first in this order.
#[derive(Clone, Copy, Debug, PartialEq, Eq, Error)]
pub enum MeasureFault {
    /// What is paid after the settlement day is worth nothing.
    #[error("the flows are worth nothing")]
    Worthless,
    /// The yield is below a basis point.
    #[error("the yield is below a basis point")]
    Low,
    /// A basis point more is beyond the greatest yield.
    #[error("a basis point more is beyond the greatest yield")]
    High,
}

/// What the full price of a bond gains on a settlement day where its yield, in units of 10^-9 from 0 to 10, rises by a basis point.
pub fn bpv(flows: &FlowTerms, settle: Day, y: u64) -> Result<Amount, MeasureFault>
    requires range { AreFlowsInRange flows.now }
    requires fixed { is_fixed flows.now.flows ≡ true }
    requires most { y ≤ MOST_YIELD }
    ensures { result ≡ measure.bpv flows.now.flows settle y }
{
    if let Some(fault) = raised_fault(y) {
        return Err(fault);
    }
    let price = price_at(flows, settle, y);
    Ok(Amount(price_at(flows, settle, y + STEP) - price))
}

/// The duration of a bond at a yield in 10^-9 years: what part of its full price a change of the yield takes.
pub fn duration(flows: &FlowTerms, settle: Day, y: u64) -> Result<i128, MeasureFault>
    requires range { AreFlowsInRange flows.now }
    requires fixed { is_fixed flows.now.flows ≡ true }
    requires most { y ≤ MOST_YIELD }
    ensures { result ≡ measure.duration flows.now.flows settle y }
{
    let price = price_at(flows, settle, y);
    if let Some(fault) = price_fault(price, y) {
        return Err(fault);
    }
    let below = price_at(flows, settle, y - STEP);
    let above = price_at(flows, settle, y + STEP);
    Ok(duration_by(below, price, above))
}

/// The convexity of a bond at a yield in years squared: how its duration changes with the yield, and its price besides.
pub fn convexity(flows: &FlowTerms, settle: Day, y: u64) -> Result<i128, MeasureFault>
    requires range { AreFlowsInRange flows.now }
    requires fixed { is_fixed flows.now.flows ≡ true }
    requires most { y ≤ MOST_YIELD }
    ensures { result ≡ measure.convexity flows.now.flows settle y }
{
    let price = price_at(flows, settle, y);
    if let Some(fault) = price_fault(price, y) {
        return Err(fault);
    }
    let below = price_at(flows, settle, y - STEP);
    let above = price_at(flows, settle, y + STEP);
    Ok(convexity_by(below, price, above))
}

// The fault of a yield from which a basis point more is beyond the greatest.
fn raised_fault(y: u64) -> Option<MeasureFault>
    requires { y ≤ MOST_YIELD }
    ensures { result ≡ measure.raised_fault y }
{
    if y + STEP <= MOST_YIELD {
        None
    } else {
        Some(MeasureFault::High)
    }
}

// The fault of a price that is nothing, or of a yield.
fn price_fault(price: i128, y: u64) -> Option<MeasureFault>
    requires { y ≤ MOST_YIELD }
    ensures { result ≡ measure.price_fault price y }
{
    if price > 0 {
        moved_fault(y)
    } else {
        Some(MeasureFault::Worthless)
    }
}

// The fault of a yield that cannot be moved by a basis point either way.
fn moved_fault(y: u64) -> Option<MeasureFault>
    requires { y ≤ MOST_YIELD }
    ensures { result ≡ measure.moved_fault y }
{
    if y >= STEP {
        raised_fault(y)
    } else {
        Some(MeasureFault::Low)
    }
}

// The duration by three prices.
fn duration_by(below: i128, price: i128, above: i128) -> i128
    requires below_low { pos 0 ≤ℤ below }
    requires below_high { below ≤ℤ pos (MOST_FLOWS * MOST_AMOUNT) }
    requires price_low { pos 0 <ℤ price }
    requires price_high { price ≤ℤ pos (MOST_FLOWS * MOST_AMOUNT) }
    requires above_low { pos 0 ≤ℤ above }
    requires above_high { above ≤ℤ pos (MOST_FLOWS * MOST_AMOUNT) }
    ensures { result ≡ measure.duration_by below price above }
{
    div_round(fall(below, above), twice(price), Rounding::Closest)
}

// The convexity by three prices.
fn convexity_by(below: i128, price: i128, above: i128) -> i128
    requires below_low { pos 0 ≤ℤ below }
    requires below_high { below ≤ℤ pos (MOST_FLOWS * MOST_AMOUNT) }
    requires price_low { pos 0 <ℤ price }
    requires price_high { price ≤ℤ pos (MOST_FLOWS * MOST_AMOUNT) }
    requires above_low { pos 0 ≤ℤ above }
    requires above_high { above ≤ℤ pos (MOST_FLOWS * MOST_AMOUNT) }
    ensures { result ≡ measure.convexity_by below price above }
{
    div_round(bend(below, price, above), price, Rounding::Closest)
}

// What the price falls by over two basis points, times 10^13: at most 1,602 * 10^22 * 10^13, of the 1.7 * 10^38 that 128 bits
// hold.
fn fall(below: i128, above: i128) -> i128
    requires below_low { pos 0 ≤ℤ below }
    requires below_high { below ≤ℤ pos (MOST_FLOWS * MOST_AMOUNT) }
    requires above_low { pos 0 ≤ℤ above }
    requires above_high { above ≤ℤ pos (MOST_FLOWS * MOST_AMOUNT) }
    ensures value { result ≡ (below -ℤ above) *ℤ pos (10 ^ 13) }
    ensures size { unsigned_abs result ≤ MOST_FLOWS * MOST_AMOUNT * 10 ^ 13 }
{
    (below - above) * 10_000_000_000_000
}

// Twice a price.
fn twice(price: i128) -> i128
    requires low { pos 0 <ℤ price }
    requires high { price ≤ℤ pos (MOST_FLOWS * MOST_AMOUNT) }
    ensures value { result ≡ pos 2 *ℤ price }
    ensures some { pos 1 ≤ℤ result }
{
    2 * price
}

// How the price bends over two basis points, times 10^8.
fn bend(below: i128, price: i128, above: i128) -> i128
    requires below_low { pos 0 ≤ℤ below }
    requires below_high { below ≤ℤ pos (MOST_FLOWS * MOST_AMOUNT) }
    requires price_low { pos 0 <ℤ price }
    requires price_high { price ≤ℤ pos (MOST_FLOWS * MOST_AMOUNT) }
    requires above_low { pos 0 ≤ℤ above }
    requires above_high { above ≤ℤ pos (MOST_FLOWS * MOST_AMOUNT) }
    ensures value { result ≡ (below +ℤ above -ℤ pos 2 *ℤ price) *ℤ pos (10 ^ 8) }
    ensures size { unsigned_abs result ≤ 2 * (MOST_FLOWS * MOST_AMOUNT) * 10 ^ 8 }
{
    (below + above - 2 * price) * 100_000_000
}
