// The yield of a bond at a clean price.
ghost use Rattle.std.specs.Prelude.{◌≡◌, ◌↔◌, true, length, ◌≤◌, ◌*◌, Err, Some, None, IfOk, ◌+ℤ◌, ◌≤ℤ◌, pos};
ghost use Rattle.jiff_core.specs.Calendar.{IsWithin};
ghost use Rattle.flow_terms.specs.declared.limits.TheConstants.{MOST_AMOUNT, MOST_FLOWS};
ghost use Rattle.flow_terms.specs.Ranges.{AreFlowsInRange};
ghost use Rattle.bond_yield.specs.declared.yields.TheConstants.{MOST_YIELD, MOST_CLEAN};
ghost use Rattle.bond_yield.specs.Fixed.{are_known, is_fixed};
ghost use Rattle.bond_yield.specs.Accrued as accrual;
ghost use Rattle.bond_yield.specs.Price as price;
ghost use Rattle.bond_yield.specs.Yield.{asked_price, price_fault, fault_of, yield_of, IsYield};

use crate::accruals::accrued;
use crate::fixed::is_fixed;
use crate::prices::price_at;
use crate::yields::{MOST_YIELD, least_yield, rate};
use day_number::Day;
use fixed_amount::{Amount, Rate};
use flow_terms::{FlowTerm, FlowTerms, expired};
use thiserror::Error;

/// Why a bond has no yield; the first in this order.
#[derive(Clone, Copy, Debug, PartialEq, Eq, Error)]
pub enum YieldFault {
    /// The flows are not those of a fixed bond.
    #[error("the flows are not fixed")]
    NotFixed,
    /// No flow is paid after the settlement day.
    #[error("no flow is paid after the settlement day")]
    NoFlow,
    /// The price asked is above this one, that at a yield of 0.
    #[error("the price is above that at a yield of 0")]
    Above(Amount),
    /// The price asked is below this one, that at the greatest yield.
    #[error("the price is below that at the greatest yield")]
    Below(Amount),
}

/// The yield of a bond on a settlement day at a clean price of at most 10^19 units either way: the least from 0 to 10 at
/// which the full price is not above the clean price and the accrued interest.
pub fn bond_yield(flows: &FlowTerms, settle: Day, clean: Amount) -> Result<Rate, YieldFault>
    requires range { AreFlowsInRange flows.now }
    requires clean { IsWithin MOST_CLEAN clean }
    ensures answer { result ≡ yield_of flows.now.flows settle clean }
    ensures fault { (fault : YieldFault) → (result ≡ Err fault) ↔ (fault_of flows.now.flows settle clean ≡ Some fault) }
    ensures least { IfOk result (IsYield flows.now.flows settle (asked_price flows.now.flows settle clean)) }
{
    if !is_fixed(flows) {
        return Err(YieldFault::NotFixed);
    }
    if expired(flows, settle) {
        return Err(YieldFault::NoFlow);
    }
    yield_at(
        flows.flows.items(),
        settle,
        sum(clean, accrued(flows, settle)),
    )
}

// A clean price and accrued interest.
fn sum(clean: Amount, interest: Amount) -> Amount
    requires clean { IsWithin MOST_CLEAN clean }
    requires low { pos 0 ≤ℤ interest }
    requires high { interest ≤ℤ pos (MOST_FLOWS * MOST_AMOUNT) }
    ensures { result ≡ clean +ℤ interest }
{
    Amount(clean.units() + interest.units())
}

/// The yield at a full price of at most 1,602 flows whose amounts are known, each from 0 to 10^22 units, in the order of their payments: the
/// least from 0 to 10 at which they are worth no more. The fault is `Above` or `Below`.
pub fn yield_at(flows: &[FlowTerm], settle: Day, price: Amount) -> Result<Rate, YieldFault>
    requires known { are_known flows.now ≡ true }
    requires count { length flows.now ≤ MOST_FLOWS }
    ensures fault { (fault : YieldFault) → (result ≡ Err fault) ↔ (price_fault flows.now settle price ≡ Some fault) }
    ensures least { IfOk result (IsYield flows.now settle price) }
{
    let greatest = price_at(flows, settle, 0);
    if price > greatest {
        return Err(YieldFault::Above(greatest));
    }
    let least = price_at(flows, settle, MOST_YIELD);
    if least > price {
        return Err(YieldFault::Below(least));
    }
    Ok(rate(least_yield(flows, settle, price)))
}
