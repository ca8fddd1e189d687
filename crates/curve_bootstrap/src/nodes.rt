// The node of a helper with known coupons.
ghost use Rattle.std.specs.Prelude.{◌≡◌, true, ℕ, suc, length, ◌≤◌, ◌*◌, ◌^◌, pos, ◌≤ℤ◌, ◌<ℤ◌, ◌-ℤ◌, ◌+ℤ◌, unsigned_abs, int_le, IfOk};
ghost use Rattle.std.specs.List.{AllWithin};
ghost use Rattle.curve_points.specs.Curve.{IsRisingFrom};
ghost use Rattle.curve_points.specs.Segment.{most};
ghost use Rattle.curve_bootstrap.specs.Coupon.{AreCoupons, AreOrdered, AreAfter, AreUpTo};
ghost use Rattle.curve_bootstrap.specs.Node.{node_of, last_of, is_negative_sum};
ghost use Rattle.curve_bootstrap.specs.Split.{split_excess, IsRoot};

use crate::Coupon;
use crate::excesses::{MOST_FACTOR, ONE, WHOLE, excess_at, interest};
use crate::faults::HelperFault;
use crate::sums::{parts_in, parts_total, settled_total, wide};
use curve_points::CurveNode;
use day_number::Day;
use fixed_amount::{Discount, Rate};

/// Returns the factor at the end of a helper with these coupons, after the nodes so far.
pub(crate) fn node(
    from: &CurveNode,
    nodes: &[CurveNode],
    last: &CurveNode,
    end: Day,
    rate: Rate,
    coupons: &[Coupon],
) -> Result<Discount, HelperFault>
    requires rising { IsRisingFrom from.now.day nodes.now }
    requires last { last.now ≡ last_of from.now nodes.now }
    requires coupons { AreCoupons from.now.day end coupons.now }
    ensures value { result ≡ node_of from.now nodes.now end rate coupons.now }
    ensures after { IfOk result (λ _. last.now.day <ℤ end) }
{
    if is_not_after(end, last.day) {
        return Err(HelperFault::Pillar);
    }
    let units = units_of(rate);
    if units.unsigned_abs() > 10_000_000_000 {
        return Err(HelperFault::RateRange);
    }
    if is_negative_sum(units, parts_total(coupons)) {
        return Err(HelperFault::Negative);
    }
    let _factor = wide(last.factor);
    let (reached, open) = coupons.split_at(reached_by(coupons, last.day, from.day));
    let settled = settled_total(from, nodes, reached);
    match least_root(last, end, units, settled, open) {
        Some(factor) => Ok(factor),
        None => Err(HelperFault::Discount),
    }
}

// Returns how many of the first coupons are paid until a day.
fn reached_by(coupons: &[Coupon], day: Day, from: Day) -> usize
    requires { AreOrdered from coupons.now }
    ensures bound { result ≤ length coupons.now }
    ensures before { AllWithin (λ coupon. coupon.day ≤ℤ day) coupons.now 0 result }
    ensures after { AllWithin (λ coupon. day <ℤ coupon.day) coupons.now result (length coupons.now) }
{
    coupons.partition_point(
        |coupon: &Coupon| -> bool
            ensures { result ≡ int_le coupon.now.day day }
        { coupon.day <= day },
    )
}
/// Returns whether a day is not after another.
pub(crate) fn is_not_after(day: Day, other: Day) -> bool
    ensures { result ≡ int_le day other }
{
    day <= other
}

// Returns the units of a rate.
fn units_of(rate: Rate) -> i128
    ensures { result ≡ rate }
{
    i128::from(rate.units())
}

// Returns whether coupons at a rate below zero take at least the whole payment.
fn is_negative_sum(rate: i128, parts: i128) -> bool
    requires parts { pos 0 ≤ℤ parts }
    requires high { parts ≤ℤ pos (801 * (2 * 10 ^ 12)) }
    requires rate { unsigned_abs rate ≤ 10 ^ 10 }
    ensures { result ≡ is_negative_sum rate parts }
{
    rate < 0 && rate * parts <= -WHOLE
}

// The greatest discount factor, for products with a shortened excess.
const MOST_UNITS: u128 = 4_000_000_000_000;

// The divisor that shortens an excess, so that its product with a discount factor fits 128 bits: 2^44.
const CUT: u128 = 17_592_186_044_416;

// Returns the factor at which the rising excess changes its sign: a near guess, or else the result of bisection.
fn least_root(
    last: &CurveNode,
    end: Day,
    rate: i128,
    settled: i128,
    coupons: &[Coupon],
) -> Option<Discount>
    requires few { length coupons.now ≤ 801 }
    requires after { AreAfter last.now.day coupons.now }
    requires up_to { AreUpTo end coupons.now }
    requires settled { pos 0 ≤ℤ settled }
    requires settled_high { settled ≤ℤ pos (801 * (8 * 10 ^ 24)) }
    requires rate { unsigned_abs rate ≤ 10 ^ 10 }
    requires rises { (x : ℕ) → split_excess last.now end rate settled coupons.now (pos x) <ℤ split_excess last.now end rate settled coupons.now (pos (suc x)) }
    ensures { IsRoot (split_excess last.now end rate settled coupons.now) result }
{
    let near = near_root(rate, settled, coupons);
    if is_root(last, end, rate, settled, coupons, near) {
        return Some(factor_of(near));
    }
    let below = excess_at(last, end, rate, settled, coupons, 0);
    if below >= 0 {
        return None;
    }
    let above = excess_at(last, end, rate, settled, coupons, MOST_FACTOR);
    if above < 0 {
        return None;
    }
    let guess = guess_of(below, above);
    let root = halved(last, end, rate, settled, coupons, guess);
    Some(factor_of(root))
}

// Returns the factor where the excess changes its sign if only the last coupon is paid after the nodes. It is only a guess.
fn near_root(rate: i128, settled: i128, coupons: &[Coupon]) -> i128
    requires settled { pos 0 ≤ℤ settled }
    requires settled_high { settled ≤ℤ pos (801 * (8 * 10 ^ 24)) }
    requires rate { unsigned_abs rate ≤ 10 ^ 10 }
    ensures low { pos 1 ≤ℤ result }
    ensures high { result ≤ℤ most }
{
    let due = ONE * WHOLE - interest(rate, settled);
    let paid = WHOLE + interest(rate, last_parts(coupons));
    let below = due.unsigned_abs().saturating_sub(1) / paid.unsigned_abs().max(1);
    let root = i128::try_from(below).unwrap_or(0).saturating_add(1);
    if root < 1 || root > MOST_FACTOR {
        return 1;
    }
    root
}

// Returns the parts of the last coupon, or 0.
fn last_parts(coupons: &[Coupon]) -> i128
    ensures low { pos 0 ≤ℤ result }
    ensures high { result ≤ℤ pos (2 * 10 ^ 12) }
{
    match coupons.last() {
        Some(coupon) => parts_in(coupon),
        None => 0,
    }
}

// Returns whether a rising excess changes its sign at a factor.
fn is_root(
    last: &CurveNode,
    end: Day,
    rate: i128,
    settled: i128,
    coupons: &[Coupon],
    x: i128,
) -> bool
    requires few { length coupons.now ≤ 801 }
    requires after { AreAfter last.now.day coupons.now }
    requires up_to { AreUpTo end coupons.now }
    requires settled { pos 0 ≤ℤ settled }
    requires settled_high { settled ≤ℤ pos (801 * (8 * 10 ^ 24)) }
    requires rate { unsigned_abs rate ≤ 10 ^ 10 }
    requires low { pos 1 ≤ℤ x }
    requires high { x ≤ℤ most }
    ensures above { result ≡ true → pos 0 ≤ℤ split_excess last.now end rate settled coupons.now x }
    ensures below { result ≡ true → split_excess last.now end rate settled coupons.now (x -ℤ pos 1) <ℤ pos 0 }
{
    if excess_at(last, end, rate, settled, coupons, x - 1) >= 0 {
        return false;
    }
    if excess_at(last, end, rate, settled, coupons, x) < 0 {
        return false;
    }
    true
}

// Returns the discount factor of so many units.
fn factor_of(root: i128) -> Discount
    requires low { pos 1 ≤ℤ root }
    requires high { root ≤ℤ most }
    ensures { result ≡ root }
{
    Discount(root as i64)
}

// Returns where the excess changes its sign between 0 and the greatest factor. Tries a guess, then places farther and farther from
// it, and then the middle of what is left.
fn halved(
    last: &CurveNode,
    end: Day,
    rate: i128,
    settled: i128,
    coupons: &[Coupon],
    guess: i128,
) -> i128
    requires few { length coupons.now ≤ 801 }
    requires after { AreAfter last.now.day coupons.now }
    requires up_to { AreUpTo end coupons.now }
    requires settled { pos 0 ≤ℤ settled }
    requires settled_high { settled ≤ℤ pos (801 * (8 * 10 ^ 24)) }
    requires rate { unsigned_abs rate ≤ 10 ^ 10 }
    requires below { split_excess last.now end rate settled coupons.now (pos 0) <ℤ pos 0 }
    requires above { pos 0 ≤ℤ split_excess last.now end rate settled coupons.now most }
    ensures low { pos 1 ≤ℤ result }
    ensures high { result ≤ℤ most }
    ensures above { pos 0 ≤ℤ split_excess last.now end rate settled coupons.now result }
    ensures below { split_excess last.now end rate settled coupons.now (result -ℤ pos 1) <ℤ pos 0 }
{
    let mut low: i128 = 0;
    let mut high: i128 = MOST_FACTOR;
    while high - low > 1 {
        let middle = tried(low, high, guess);
        if excess_at(last, end, rate, settled, coupons, middle) < 0 {
            low = middle;
        } else {
            high = middle;
        }
    }
    high
}

// Returns a guess where an excess changes its sign, as if it rose evenly from 0 to the greatest factor. Any result is right.
fn guess_of(below: i128, above: i128) -> i128 {
    let below = below.unsigned_abs() / CUT;
    let all = below + above.unsigned_abs() / CUT;
    if all == 0 {
        return 0;
    }
    i128::try_from(MOST_UNITS * below / all).unwrap_or(0)
}

// Returns a number strictly between two that differ by more than 1: a guess, then one farther from it if the guess is not between
// them, or else their middle. The guess and a neighbour are nearly always the last two.
fn tried(low: i128, high: i128, guess: i128) -> i128
    requires low { pos 0 ≤ℤ low }
    requires apart { (low +ℤ pos 1) <ℤ high }
    requires high { high ≤ℤ most }
    ensures low { low <ℤ result }
    ensures high { result <ℤ high }
{
    let near = guess
        .max((2 * low + 1).saturating_sub(guess))
        .min((2 * high - 1).saturating_sub(guess));
    if low < near && near < high {
        return near;
    }
    mean(low, high)
}

// Returns a number strictly between two that differ by more than 1.
fn mean(low: i128, high: i128) -> i128
    requires low { pos 0 ≤ℤ low }
    requires apart { (low +ℤ pos 1) <ℤ high }
    requires high { high ≤ℤ most }
    ensures low { low <ℤ result }
    ensures high { result <ℤ high }
{
    low + (high - low) / 2
}
