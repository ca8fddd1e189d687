// Days, amounts and quotients as whole numbers.
ghost use Rattle.std.specs.Prelude.{◌≡◌, true, ◌≤◌, ◌<◌, ◌^◌, ◌+◌, ◌*◌, pos};
ghost use Rattle.fixed_amount.specs.Rounding.{closest};
ghost use Rattle.flow_terms.specs.declared.limits.TheConstants.{MOST_AMOUNT};
ghost use Rattle.bond_yield.specs.Fixed.{is_known};
ghost use Rattle.bond_yield.specs.Price.{days_from, amount_of};

use day_number::Day;
use fixed_amount::{Amount, Rounding, div_round};
use flow_terms::FlowTerm;

/// How many days lie from a day to one that is not before it.
pub(crate) fn days_from(from: Day, to: Day) -> u128
    ensures value { result ≡ days_from from to }
    ensures few { result ≤ 110_000 }
{
    u128::from(from.number().abs_diff(to.number()))
}

/// The amount of a known flow in units; 0 of another.
pub(crate) fn amount_of(flow: &FlowTerm) -> u128
    requires { is_known flow.now ≡ true }
    ensures value { result ≡ amount_of flow.now }
    ensures bound { result ≤ MOST_AMOUNT }
{
    match flow {
        FlowTerm::Known { amount, .. } => amount.units().unsigned_abs(),
        FlowTerm::Float { .. } | FlowTerm::Forward { .. } => 0,
    }
}

/// A quotient rounded to the nearest whole number, a half up.
pub(crate) fn nearest(num: u128, den: u128) -> u128
    requires high { num < 2 ^ 127 }
    requires low { 1 ≤ den }
    requires small { den < 2 ^ 127 }
    ensures { pos result ≡ closest (pos num) den }
{
    div_round(num as i128, den as i128, Rounding::Closest) as u128
}

/// An amount of so many units.
pub(crate) fn amount(units: u128) -> Amount
    requires { units ≤ 10 ^ 26 }
    ensures { result ≡ pos units }
{
    Amount(units as i128)
}
