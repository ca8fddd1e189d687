// Interest on a notional, rounded once.
ghost use Rattle.std.specs.Prelude.{◌≡◌, ◌≤◌, ◌*◌, ◌*ℤ◌, ◌+ℤ◌, ◌-ℤ◌, pos, unsigned_abs};
ghost use Rattle.jiff_core.specs.Calendar.{IsBetween, IsWithin};
ghost use Rattle.fixed_amount.specs.Rounding.{closest};
ghost use Rattle.flow_terms.specs.Fixings.{IsRate};
ghost use Rattle.flow_terms.specs.Ranges.{IsNotional};
ghost use Rattle.flow_terms.specs.declared.limits.TheConstants.{MOST_RATE, MOST_NOTIONAL, MOST_PARTS, MOST_AMOUNT};
ghost use Rattle.cash_flow_legs.specs.Interest.{IsSumOfRates, most_product, whole, interest};

use fixed_amount::{Amount, Rate, Rounding, div_round};
use year_parts::{PARTS_IN_YEAR, YearParts};

/// Interest of 1 for a year on one unit of a notional: 10^9 units of a rate times the parts of a year.
pub(crate) const WHOLE: i128 = 1_000_000_000 * PARTS_IN_YEAR as i128;

/// Returns the interest on a notional at a rate, or at the sum of two, for a part of the year, rounded to the nearest unit.
pub(crate) fn interest(notional: Amount, rate: Rate, parts: YearParts) -> Amount
    requires notional { IsNotional notional }
    requires rate { IsSumOfRates rate }
    requires parts { IsBetween (pos 0) MOST_PARTS parts }
    ensures value { result ≡ interest notional rate parts }
    ensures range { IsWithin MOST_AMOUNT result }
{
    Amount(in_units(product(notional, rate, parts)))
}

// Returns interest in units of an amount, rounded to the nearest.
fn in_units(product: i128) -> i128
    requires { unsigned_abs product ≤ most_product }
    ensures value { result ≡ closest product whole }
    ensures range { IsWithin MOST_AMOUNT result }
{
    div_round(product, WHOLE, Rounding::Closest)
}

/// Returns a notional times a rate, or the sum of two, times a part of the year.
pub(crate) fn product(notional: Amount, rate: Rate, parts: YearParts) -> i128
    requires notional { IsNotional notional }
    requires rate { IsSumOfRates rate }
    requires parts { IsBetween (pos 0) MOST_PARTS parts }
    ensures value { result ≡ notional *ℤ rate *ℤ parts }
    ensures size { unsigned_abs result ≤ most_product }
{
    yearly(notional, rate) * wide(parts)
}

// Returns a notional times a rate, or the sum of two.
fn yearly(notional: Amount, rate: Rate) -> i128
    requires notional { IsNotional notional }
    requires rate { IsSumOfRates rate }
    ensures value { result ≡ notional *ℤ rate }
    ensures size { unsigned_abs result ≤ MOST_NOTIONAL * (2 * MOST_RATE) }
{
    notional.units() * wide_rate(rate)
}

/// Returns the units of a rate, for products.
pub(crate) fn wide_rate(rate: Rate) -> i128
    ensures { result ≡ rate }
{
    i128::from(rate.units())
}

/// Returns the parts of a year, for products.
pub(crate) fn wide(parts: YearParts) -> i128
    requires { IsBetween (pos 0) MOST_PARTS parts }
    ensures value { result ≡ parts }
    ensures range { IsBetween (pos 0) MOST_PARTS result }
{
    i128::from(parts.0)
}

/// Returns a rate plus a spread.
pub(crate) fn sum(rate: Rate, spread: Rate) -> Rate
    requires rate { IsRate rate }
    requires spread { IsRate spread }
    ensures value { result ≡ rate +ℤ spread }
    ensures range { IsSumOfRates result }
{
    Rate(rate.units() + spread.units())
}

/// Returns a rate less a strike.
pub(crate) fn difference(rate: Rate, strike: Rate) -> Rate
    requires rate { IsRate rate }
    requires strike { IsRate strike }
    ensures value { result ≡ rate -ℤ strike }
    ensures range { IsSumOfRates result }
{
    Rate(rate.units() - strike.units())
}
