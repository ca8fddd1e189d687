// The price of a fixed bond at a yield.
ghost use Rattle.std.specs.Prelude.{◌≡◌, true, length, ◌≤◌, ◌*◌, ◌≤ℤ◌, pos, unsigned_abs};
ghost use Rattle.flow_terms.specs.declared.limits.TheConstants.{MOST_AMOUNT, MOST_FLOWS};
ghost use Rattle.flow_terms.specs.Ranges.{AreFlowsInRange};
ghost use Rattle.bond_yield.specs.declared.yields.TheConstants.{MOST_YIELD};
ghost use Rattle.bond_yield.specs.Fixed.{are_known, is_fixed};
ghost use Rattle.bond_yield.specs.Price as price;

use crate::amounts::{amount, amount_of, days_from, nearest};
use day_number::Day;
use fixed_amount::{Amount, Rate};
use flow_terms::{FlowTerm, FlowTerms};

// A factor of 1, in units of 10^-12.
const ONE: u128 = 1_000_000_000_000;

// Interest of 1 for a year: 10^9 units of a rate times 11,221,560 parts of a year.
const WHOLE: u128 = 11_221_560_000_000_000;

// The parts of a day over 365.
const PARTS_IN_DAY: u128 = 30_744;

/// The full price of a fixed bond on a settlement day at a yield from 0 to 10: what is paid after the day, discounted
/// at simple interest over Act/365 from one payment day to the next, and rounded once.
pub fn full_price(flows: &FlowTerms, settle: Day, y: Rate) -> Amount
    requires range { AreFlowsInRange flows.now }
    requires fixed { is_fixed flows.now.flows ≡ true }
    requires low { pos 0 ≤ℤ y }
    requires high { unsigned_abs y ≤ MOST_YIELD }
    ensures { result ≡ price.full_price flows.now.flows settle (unsigned_abs y) }
{
    price_at(flows.flows.items(), settle, y.units().unsigned_abs())
}

/// The full price at a yield in units of 10^-9.
pub(crate) fn price_at(flows: &[FlowTerm], settle: Day, y: u64) -> Amount
    requires known { are_known flows.now ≡ true }
    requires count { length flows.now ≤ MOST_FLOWS }
    requires high { y ≤ MOST_YIELD }
    ensures { result ≡ price.full_price flows.now settle y }
{
    amount(nearest(worth(flows, settle, y), ONE))
}

// What is paid after the settlement day, each amount times its factor.
fn worth(flows: &[FlowTerm], settle: Day, y: u64) -> u128
    requires known { are_known flows.now ≡ true }
    requires count { length flows.now ≤ MOST_FLOWS }
    requires high { y ≤ MOST_YIELD }
    ensures value { result ≡ price.worth_from y settle price.one (price.paid_after settle flows.now) }
    ensures bound { result ≤ MOST_FLOWS * (MOST_AMOUNT * price.one) }
{
    let mut day = settle;
    let mut factor = ONE;
    let mut total: u128 = 0;
    for flow in flows {
        let paid = flow.paid();
        if paid > settle {
            factor = factor_after(y, factor, days_from(day, paid));
            total += amount_of(flow) * factor;
            day = paid;
        }
    }
    total
}

// The factor behind so many more days.
fn factor_after(y: u64, factor: u128, days: u128) -> u128
    requires high { y ≤ MOST_YIELD }
    requires factor { factor ≤ price.one }
    requires days { days ≤ 110_000 }
    ensures value { result ≡ price.factor_after y factor days }
    ensures bound { result ≤ price.one }
{
    factor * WHOLE / (WHOLE + u128::from(y) * (days * PARTS_IN_DAY))
}
