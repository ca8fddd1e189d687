// Numbers of the tables.
ghost use Rattle.std.specs.Prelude.{◌≤◌, ◌≤ℤ◌, pos, IfSome};
ghost use Rattle.bond_yield.specs.declared.yields.TheConstants.{MOST_YIELD};

use bond_yield::MOST_YIELD;
use fixed_amount::{Amount, read_decimal};

// How many units of 10^-12 a unit of 10^-6 has.
const FINE: i128 = 1_000_000;

// The greatest distance between a gap and the stated one, which has two places: half a hundredth of a unit of 10^-6, and
// what QuantLib's value lost where it was cut, in units of 10^-12.
const HALF: u128 = 5_001;

/// An amount in units of 10^-6.
pub(crate) fn whole_amount(text: &str) -> Option<Amount> {
    let units = read_decimal(text.as_bytes(), 0).ok()?;
    Some(Amount(i128::from(units)))
}

/// A yield from 0 to 10, in units of 10^-9.
pub(crate) fn yield_of(text: &str) -> Option<u64>
    ensures { IfSome result (λ y. y ≤ MOST_YIELD) }
{
    let units = read_decimal(text.as_bytes(), 0).ok()?;
    let y = units.unsigned_abs();
    if units < 0 || y > MOST_YIELD {
        return None;
    }
    Some(y)
}

/// Whether a value in units of 10^-6 is as far from QuantLib's as a gap says, in units of 10^-6 and with two places.
pub(crate) fn has_gap(units: &str, quantlib: &str, gap: &str) -> Option<bool> {
    let exact = read_decimal(quantlib.as_bytes(), 12).ok()?;
    let stated = read_decimal(gap.as_bytes(), 6).ok()?;
    let units = read_decimal(units.as_bytes(), 0).ok()?;
    let off = i128::from(units) * FINE - i128::from(exact);
    let over = i128::from(stated).unsigned_abs();
    Some(off.unsigned_abs().abs_diff(over) <= HALF)
}

/// Whether a figure lies no farther from another than a bound says, each of at most 12 places.
pub(crate) fn is_near(figure: &str, other: &str, bound: &str) -> Option<bool> {
    let figure = read_decimal(figure.as_bytes(), 12).ok()?;
    let other = read_decimal(other.as_bytes(), 12).ok()?;
    let bound = read_decimal(bound.as_bytes(), 12).ok()?;
    let off = i128::from(figure) - i128::from(other);
    Some(bound >= 0 && off.unsigned_abs() <= i128::from(bound).unsigned_abs())
}

/// Whether so many units, each of so many units of 10^-18, are no farther from QuantLib's figure than a gap in units of 10^-18.
pub(crate) fn is_within(units: i64, fine: u32, quantlib: &str, gap: u128) -> Option<bool> {
    let exact = read_decimal(quantlib.as_bytes(), 18).ok()?;
    let off = i128::from(units) * i128::from(fine) - i128::from(exact);
    Some(off.unsigned_abs() <= gap)
}

/// A gap in units of 10^-12 that was rounded to hundredths: the greatest that rounds to it, in units of 10^-18.
pub(crate) fn rounded_gap(text: &str) -> Option<u128> {
    let hundredths = read_decimal(text.as_bytes(), 2).ok()?;
    Some(u128::from(hundredths.unsigned_abs()) * 10_000 + 5_000)
}
