// Interest that has accrued.
ghost use Rattle.std.specs.Prelude.{◌≡◌, true, length, ◌≤◌, ◌*◌, ◌≤ℤ◌, ◌<ℤ◌, pos, unsigned_abs};
ghost use Rattle.flow_terms.specs.declared.limits.TheConstants.{MOST_AMOUNT, MOST_FLOWS};
ghost use Rattle.flow_terms.specs.Ranges.{AreFlowsInRange};
ghost use Rattle.bond_yield.specs.Fixed.{is_payment, is_known, are_known, is_fixed};
ghost use Rattle.bond_yield.specs.Accrued as accrual;

use crate::amounts::{amount, days_from, nearest};
use day_number::Day;
use fixed_amount::Amount;
use flow_terms::{FlowTerm, FlowTerms};

/// The interest of a fixed bond that has accrued on a settlement day: of each coupon whose period has begun and not
/// ended its share by days, rounded to the nearest (QuantLib's `BondFunctions::accruedAmount`).
pub fn accrued(flows: &FlowTerms, settle: Day) -> Amount
    requires range { AreFlowsInRange flows.now }
    requires fixed { is_fixed flows.now.flows ≡ true }
    ensures value { result ≡ accrual.accrued flows.now.flows settle }
    ensures low { pos 0 ≤ℤ result }
    ensures high { result ≤ℤ pos (MOST_FLOWS * MOST_AMOUNT) }
{
    amount(accrued_units(flows.flows.items(), settle))
}

// The interest that has accrued, in units.
fn accrued_units(flows: &[FlowTerm], settle: Day) -> u128
    requires known { are_known flows.now ≡ true }
    requires count { length flows.now ≤ MOST_FLOWS }
    ensures value { pos result ≡ accrual.accrued flows.now settle }
    ensures bound { result ≤ MOST_FLOWS * MOST_AMOUNT }
{
    let mut sum: u128 = 0;
    for flow in flows {
        sum += accrued_of(flow, settle);
    }
    sum
}

// The accrued interest of one flow.
fn accrued_of(flow: &FlowTerm, settle: Day) -> u128
    requires { is_known flow.now ≡ true }
    ensures value { pos result ≡ accrual.accrued_of flow.now settle }
    ensures bound { result ≤ MOST_AMOUNT }
{
    match flow {
        FlowTerm::Known {
            amount,
            period: Some((start, end)),
            ..
        } => accrued_over(*amount, *start, *end, settle),
        FlowTerm::Known { period: None, .. } => 0,
        FlowTerm::Float { .. } | FlowTerm::Forward { .. } => 0,
    }
}

// The share of an amount that has accrued since the start of its period; 0 before it and from its end on.
fn accrued_over(amount: Amount, start: Day, end: Day, settle: Day) -> u128
    requires { is_payment amount ≡ true }
    ensures value { pos result ≡ accrual.accrued_over amount start end settle }
    ensures bound { result ≤ MOST_AMOUNT }
{
    if settle < start || settle >= end {
        return 0;
    }
    share(amount, start, end, settle)
}

// The share of an amount that has accrued on a day of its period.
fn share(amount: Amount, start: Day, end: Day, settle: Day) -> u128
    requires payment { is_payment amount ≡ true }
    requires begun { start ≤ℤ settle }
    requires open { settle <ℤ end }
    ensures value { pos result ≡ accrual.share amount start end settle }
    ensures bound { result ≤ MOST_AMOUNT }
{
    nearest(
        amount.units().unsigned_abs() * days_from(start, settle),
        days_from(start, end),
    )
}
