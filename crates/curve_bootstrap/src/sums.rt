// Sums over the coupons of a helper.
ghost use Rattle.std.specs.Prelude.{◌≡◌, length, ◌≤◌, ◌*◌, ◌^◌, pos, ◌≤ℤ◌, ◌<ℤ◌, ◌*ℤ◌};
ghost use Rattle.curve_points.specs.Curve.{IsRisingFrom};
ghost use Rattle.curve_points.specs.Segment.{most};
ghost use Rattle.curve_bootstrap.specs.Coupon.{total, parts_of, AreAfter, AreUpTo};
ghost use Rattle.curve_bootstrap.specs.Split.{settled_of, open_of};
ghost use Rattle.curve_bootstrap.specs.Node.{or_zero};
ghost use Rattle.curve_points.specs.Point.{beyond};

use crate::Coupon;
use curve_points::{CurveNode, factor_between, factor_beyond_near};
use day_number::Day;
use fixed_amount::Discount;

/// Returns the parts of all coupons.
#[tactic(auto, using(crate::proofs::SumLemmas::total_more, crate::proofs::SumLemmas::total_none))]
pub(crate) fn parts_total(coupons: &[Coupon]) -> i128
    requires few { length coupons.now ≤ 801 }
    ensures value { result ≡ total parts_of coupons.now }
    ensures low { pos 0 ≤ℤ result }
    ensures high { result ≤ℤ pos (801 * (2 * 10 ^ 12)) }
{
    let mut sum: i128 = 0;
    for coupon in coupons {
        sum += parts_in(coupon);
    }
    sum
}

/// Returns the parts of a coupon.
pub(crate) fn parts_in(coupon: &Coupon) -> i128
    ensures value { result ≡ coupon.now.parts }
    ensures low { pos 0 ≤ℤ result }
    ensures high { result ≤ℤ pos (2 * 10 ^ 12) }
{
    i128::from(coupon.parts.0)
}

/// Returns the units of a discount factor, for products.
pub(crate) fn wide(factor: Discount) -> i128
    ensures value { result ≡ factor }
    ensures low { pos 1 ≤ℤ result }
    ensures high { result ≤ℤ most }
{
    i128::from(factor.units())
}

/// Returns the value of the coupons within the nodes so far.
#[tactic(auto, using(crate::proofs::SumLemmas::total_more, crate::proofs::SumLemmas::total_none))]
pub(crate) fn settled_total(from: &CurveNode, nodes: &[CurveNode], coupons: &[Coupon]) -> i128
    requires few { length coupons.now ≤ 801 }
    requires rising { IsRisingFrom from.now.day nodes.now }
    requires after { AreAfter from.now.day coupons.now }
    ensures value { result ≡ total (settled_of from.now nodes.now) coupons.now }
    ensures low { pos 0 ≤ℤ result }
    ensures high { result ≤ℤ pos (801 * (8 * 10 ^ 24)) }
{
    let mut sum: i128 = 0;
    let mut guess = 0;
    for coupon in coupons {
        sum += settled_in(from, nodes, coupon, &mut guess);
    }
    sum
}

// Returns the value of a coupon within the nodes so far, else 0.
fn settled_in(from: &CurveNode, nodes: &[CurveNode], coupon: &Coupon, guess: &mut usize) -> i128
    requires rising { IsRisingFrom from.now.day nodes.now }
    requires after { from.now.day <ℤ coupon.now.day }
    ensures value { result ≡ settled_of from.now nodes.now coupon.now }
    ensures low { pos 0 ≤ℤ result }
    ensures high { result ≤ℤ pos (8 * 10 ^ 24) }
{
    let factor = reached_factor(from, nodes, coupon.day, guess);
    product(parts_in(coupon), factor)
}

// Returns the factor on a day within the nodes so far, else 0.
fn reached_factor(from: &CurveNode, nodes: &[CurveNode], day: Day, guess: &mut usize) -> i128
    requires rising { IsRisingFrom from.now.day nodes.now }
    requires after { from.now.day <ℤ day }
    ensures value { result ≡ or_zero (beyond from.now nodes.now day) }
    ensures low { pos 0 ≤ℤ result }
    ensures high { result ≤ℤ most }
{
    match factor_beyond_near(from, nodes, day, guess) {
        Some(factor) => wide(factor),
        None => 0,
    }
}

/// Returns the value of the coupons after the last node, for a factor at the end.
#[tactic(auto, using(crate::proofs::SumLemmas::total_more, crate::proofs::SumLemmas::total_none))]
pub(crate) fn open_total(last: &CurveNode, end: Day, x: i128, coupons: &[Coupon]) -> i128
    requires few { length coupons.now ≤ 801 }
    requires after { AreAfter last.now.day coupons.now }
    requires up_to { AreUpTo end coupons.now }
    requires low { pos 0 ≤ℤ x }
    requires high { x ≤ℤ most }
    ensures value { result ≡ total (open_of last.now end x) coupons.now }
    ensures low { pos 0 ≤ℤ result }
    ensures high { result ≤ℤ pos (801 * (8 * 10 ^ 24)) }
{
    let mut sum: i128 = 0;
    for coupon in coupons {
        sum += open_in(last, end, x, coupon);
    }
    sum
}

// Returns the value of a coupon after the last node, for a factor at the end.
fn open_in(last: &CurveNode, end: Day, x: i128, coupon: &Coupon) -> i128
    requires after { last.now.day <ℤ coupon.now.day }
    requires up_to { coupon.now.day ≤ℤ end }
    requires low { pos 0 ≤ℤ x }
    requires high { x ≤ℤ most }
    ensures value { result ≡ open_of last.now end x coupon.now }
    ensures low { pos 0 ≤ℤ result }
    ensures high { result ≤ℤ pos (8 * 10 ^ 24) }
{
    let factor = factor_between(last.day, wide(last.factor), end, x, coupon.day);
    product(parts_in(coupon), factor)
}

// Returns parts times a factor.
fn product(parts: i128, factor: i128) -> i128
    requires parts { pos 0 ≤ℤ parts }
    requires parts_high { parts ≤ℤ pos (2 * 10 ^ 12) }
    requires factor { pos 0 ≤ℤ factor }
    requires factor_high { factor ≤ℤ most }
    ensures value { result ≡ parts *ℤ factor }
    ensures low { pos 0 ≤ℤ result }
    ensures high { result ≤ℤ pos (8 * 10 ^ 24) }
{
    parts * factor
}
