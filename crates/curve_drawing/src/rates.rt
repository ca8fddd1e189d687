// Rates of a curve.
ghost use Rattle.std.specs.Prelude.{◌≡◌, ◌≢◌, ◌*◌, ◌^◌, ◌≤ℤ◌, ◌-ℤ◌, ◌*ℤ◌, pos, unsigned_abs, ◌≤◌, IfOk};
ghost use Rattle.year_parts.specs.Parts.{parts_in_year};
ghost use Rattle.flow_terms.specs.Fixings.{IsRate};
ghost use Rattle.rate_indexes.specs.Forecast.{whole, factor_at, forward_rate, rate_or_cause, simple_rate};
ghost use Rattle.curve_drawing.specs.Rates.{parts_between, rate_between};

use curve_points::{CurveValue, PointFault, discount};
use day_number::Day;
use desk_names::ObjId;
use desk_terms::Cause;
use fixed_amount::{Discount, Rate, Rounding, div_round};
use flow_terms::MOST_RATE;
use year_parts::{PARTS_IN_YEAR, YearParts};

// The rate 1, in units of 10^-9.
const ONE_RATE: i64 = 1_000_000_000;

// The parts of a year that a day has by Act/365.
const DAY_PARTS: i64 = 30_744;

// The rate of a curve from a day to a later one.
pub(crate) fn rate_between(curve: &CurveValue, from: Day, until: Day) -> Result<Rate, Cause>
    ensures value { result ≡ rate_between curve.now from until }
    ensures range { IfOk result IsRate }
{
    let first = factor_at(curve, from)?;
    let last = factor_at(curve, until)?;
    forward_rate(curve.owner(), first, last, parts_between(from, until))
}

// The part of the year between two days.
fn parts_between(from: Day, until: Day) -> YearParts
    ensures { result ≡ parts_between from until }
{
    YearParts(i64::from(until.number().abs_diff(from.number())) * DAY_PARTS)
}

// The factor of the curve at a day, or the cause that names its owner.
fn factor_at(curve: &CurveValue, day: Day) -> Result<Discount, Cause>
    ensures { result ≡ factor_at curve.now day }
{
    match discount(curve, day) {
        Ok(factor) => Ok(factor),
        Err(PointFault::Before) => Err(Cause::Before(curve.owner(), day)),
        Err(PointFault::Past) => Err(Cause::Past(curve.owner(), day)),
    }
}

// The rate from a factor to a later one, where there is one.
fn forward_rate(
    owner: ObjId,
    first: Discount,
    last: Discount,
    parts: YearParts,
) -> Result<Rate, Cause>
    ensures value { result ≡ forward_rate owner first last parts }
    ensures range { IfOk result IsRate }
{
    if parts.0 == 0 {
        return Err(Cause::RateRange(owner));
    }
    ranged(owner, simple_rate(first, last, parts))
}

// A rate of so many units, where it is within 10 either way.
pub(crate) fn ranged(owner: ObjId, units: i128) -> Result<Rate, Cause>
    ensures value { result ≡ rate_or_cause owner units }
    ensures range { IfOk result IsRate }
{
    if units.unsigned_abs() > u128::from(MOST_RATE) {
        return Err(Cause::RateRange(owner));
    }
    Ok(Rate(units as i64))
}

// The units of the rate from a factor to a later one.
fn simple_rate(first: Discount, last: Discount, parts: YearParts) -> i128
    requires { parts ≢ pos 0 }
    ensures { result ≡ simple_rate first last parts }
{
    div_round(gain(first, last), divisor(last, parts), Rounding::Closest)
}

// What a deposit gains, times the units of the rate 1 for a whole year.
fn gain(first: Discount, last: Discount) -> i128
    ensures value { result ≡ (first -ℤ last) *ℤ whole }
    ensures size { unsigned_abs result ≤ 4 * 10 ^ 12 * (10 ^ 9 * parts_in_year) }
{
    i128::from(first.units() - last.units()) * (i128::from(ONE_RATE) * i128::from(PARTS_IN_YEAR))
}

// What is paid for it at the later day, times its part of the year.
fn divisor(last: Discount, parts: YearParts) -> i128
    requires { parts ≢ pos 0 }
    ensures value { result ≡ last *ℤ parts }
    ensures low { pos 1 ≤ℤ result }
    ensures high { result ≤ℤ pos (8 * 10 ^ 24) }
{
    i128::from(last.units()) * i128::from(parts.0)
}
