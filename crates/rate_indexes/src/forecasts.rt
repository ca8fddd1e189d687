// A rate of an index from a discount curve.
ghost use Rattle.std.specs.Prelude.{◌≡◌, ◌≢◌, ◌*◌, ◌^◌, ◌≤ℤ◌, ◌-ℤ◌, ◌*ℤ◌, pos, unsigned_abs, ◌≤◌, IfOk};
ghost use Rattle.year_parts.specs.Parts.{parts_in_year};
ghost use Rattle.flow_terms.specs.Fixings.{IsRate};
ghost use Rattle.rate_indexes.specs.Forecast.{whole, factor_at, forward_rate, rate_or_cause, simple_rate, forecast_of};

use crate::period;
use curve_points::{CurveValue, PointFault, discount};
use day_number::Day;
use desk_names::ObjId;
use desk_terms::Cause;
use fixed_amount::{Discount, Rate, Rounding, div_round};
use flow_terms::{IndexTerms, MOST_RATE};
use year_parts::{PARTS_IN_YEAR, YearParts};

/// The rate 1, in units of 10^-9.
const ONE_RATE: i64 = 1_000_000_000;

/// The rate of an index that is fixed on a day, as the curve has it: what 1 at the value day is worth at the maturity,
/// less 1, by the part of the year between them, rounded once (QuantLib's `IborIndex::forecastFixing`). The causes come
/// in this order: those of [`period`]; `Before` and `Past` of the curve's owner at the value day, and then at the
/// maturity; `RateRange` of the index where the part of the year is 0, or the rate is beyond 10 either way.
#[tactic(auto, unfolding(crate::specs::Forecast::forecast_of))]
pub(crate) fn forecast(
    x: ObjId,
    terms: &IndexTerms,
    day: Day,
    curve: &CurveValue,
) -> Result<Rate, Cause>
    ensures value { result ≡ forecast_of x terms.now day curve.now }
    ensures range { IfOk result IsRate }
{
    let (value, maturity, parts) = period(x, terms, day)?;
    let first = factor_at(curve, value)?;
    let last = factor_at(curve, maturity)?;
    forward_rate(x, first, last, parts)
}

// The factor of the curve at a day, or the cause that names its owner.
fn factor_at(curve: &CurveValue, day: Day) -> Result<Discount, Cause>
    ensures { result ≡ factor_at curve.now day }
{
    match discount(curve, day) {
        Ok(factor) => Ok(factor),
        Err(PointFault::Before) => Err(Cause::Before(curve.owner(), day)),
        Err(PointFault::Past) => Err(Cause::Past(curve.owner(), day)),
    }
}

// The rate from a factor to a later one, where there is one.
fn forward_rate(x: ObjId, first: Discount, last: Discount, parts: YearParts) -> Result<Rate, Cause>
    ensures value { result ≡ forward_rate x first last parts }
    ensures range { IfOk result IsRate }
{
    if parts.0 == 0 {
        return Err(Cause::RateRange(x));
    }
    ranged(x, simple_rate(first, last, parts))
}

// A rate of so many units, where it is within 10 either way.
fn ranged(x: ObjId, units: i128) -> Result<Rate, Cause>
    ensures value { result ≡ rate_or_cause x units }
    ensures range { IfOk result IsRate }
{
    if units.unsigned_abs() > u128::from(MOST_RATE) {
        return Err(Cause::RateRange(x));
    }
    Ok(Rate(units as i64))
}

// The units of the rate from a factor to a later one: the numerator is at most 4 * 10^12 * 1.13 * 10^16 and the divisor
// at most 4 * 10^12 * 2 * 10^12, of the 1.7 * 10^38 that 128 bits hold.
fn simple_rate(first: Discount, last: Discount, parts: YearParts) -> i128
    requires { parts ≢ pos 0 }
    ensures { result ≡ simple_rate first last parts }
{
    div_round(gain(first, last), divisor(last, parts), Rounding::Closest)
}

// What a deposit gains, times the units of the rate 1 for a whole year.
fn gain(first: Discount, last: Discount) -> i128
    ensures value { result ≡ (first -ℤ last) *ℤ whole }
    ensures size { unsigned_abs result ≤ 4 * 10 ^ 12 * (10 ^ 9 * parts_in_year) }
{
    i128::from(first.units() - last.units()) * (i128::from(ONE_RATE) * i128::from(PARTS_IN_YEAR))
}

// What is paid for it at the maturity, times its part of the year.
fn divisor(last: Discount, parts: YearParts) -> i128
    requires { parts ≢ pos 0 }
    ensures value { result ≡ last *ℤ parts }
    ensures low { pos 1 ≤ℤ result }
    ensures high { result ≤ℤ pos (8 * 10 ^ 24) }
{
    i128::from(last.units()) * i128::from(parts.0)
}
