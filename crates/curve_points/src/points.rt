// The discount factor at a day.
ghost use Rattle.std.specs.Prelude.{◌≡◌, IsTrue, ◌≤◌, ◌<◌, ◌+◌, length, pos, ◌<ℤ◌, ◌≤ℤ◌, int_lt};
ghost use Rattle.std.specs.List.{AllWithin};
ghost use Rattle.curve_points.specs.Curve.{IsRisingFrom, origin};
ghost use Rattle.curve_points.specs.Segment.{on_segment, most};
ghost use Rattle.curve_points.specs.Point.{discount_at, beyond};

use crate::{CurveNode, CurveValue, ONE, factor_between};
use day_number::Day;
use fixed_amount::Discount;
use thiserror::Error;

/// Why a curve has no discount factor at a day.
#[derive(Clone, Copy, Debug, PartialEq, Eq, Error)]
pub enum PointFault {
    /// The day is before the reference day.
    #[error("before the reference day")]
    Before,
    /// The day is after the last node, or after the reference day of a curve without nodes.
    #[error("after the last node")]
    Past,
}

// A place that no node has: no guess.
const NO_GUESS: usize = usize::MAX;

/// The discount factor of a curve at a day: 1 at the reference day, else in proportion to the days between the two nodes
/// round the day, rounded once. It takes no memory, and a number of steps that grows with the logarithm of the nodes.
pub fn discount(curve: &CurveValue, day: Day) -> Result<Discount, PointFault>
    ensures { result ≡ discount_at curve.now day }
{
    let mut guess = NO_GUESS;
    discount_near(curve, day, &mut guess)
}

/// The same where the place among the nodes is guessed: the guess and the place behind it are tried before all others.
/// What is found is the guess for the next day. The answer does not depend on it.
#[inline(always)]
pub fn discount_near(
    curve: &CurveValue,
    day: Day,
    guess: &mut usize,
) -> Result<Discount, PointFault>
    ensures { result ≡ discount_at curve.now day }
{
    if is_before(day, curve.reference) {
        return Err(PointFault::Before);
    }
    if day == curve.reference {
        return Ok(Discount(ONE));
    }
    let origin = CurveNode {
        day: curve.reference,
        factor: Discount(ONE),
    };
    match factor_beyond_near(&origin, curve.nodes.items(), day, guess) {
        Some(factor) => Ok(factor),
        None => Err(PointFault::Past),
    }
}

/// The discount factor at a day after that of a node, where the curve goes on from it by nodes; none past the last.
pub fn factor_beyond(from: &CurveNode, nodes: &[CurveNode], day: Day) -> Option<Discount>
    requires rising { IsRisingFrom from.now.day nodes.now }
    requires after { from.now.day <ℤ day }
    ensures { result ≡ beyond from.now nodes.now day }
{
    let mut guess = NO_GUESS;
    factor_beyond_near(from, nodes, day, &mut guess)
}

/// The same where the place among the nodes is guessed, as for `discount_near`.
#[inline(always)]
pub fn factor_beyond_near(
    from: &CurveNode,
    nodes: &[CurveNode],
    day: Day,
    guess: &mut usize,
) -> Option<Discount>
    requires rising { IsRisingFrom from.now.day nodes.now }
    requires after { from.now.day <ℤ day }
    ensures { result ≡ beyond from.now nodes.now day }
{
    let at = place_near(nodes, day, from.day, *guess);
    *guess = at;
    if at == nodes.len() {
        return None;
    }
    let end = &nodes[at];
    if at == 0 {
        return Some(on_segment(from, end, day));
    }
    let start = &nodes[at - 1];
    Some(on_segment(start, end, day))
}

// The place of the first node that is not before a day, or their number: from a guess on, where the node there is before
// the day, and the guess, where that is the place.
#[inline(always)]
fn place_near(nodes: &[CurveNode], day: Day, reference: Day, guess: usize) -> usize
    requires { IsRisingFrom reference nodes.now }
    ensures bound { result ≤ length nodes.now }
    ensures before { AllWithin (λ node. node.day <ℤ day) nodes.now 0 result }
    ensures after { AllWithin (λ node. day ≤ℤ node.day) nodes.now result (length nodes.now) }
{
    if guess >= nodes.len() {
        return place_of(nodes, day, reference);
    }
    if is_before(nodes[guess].day, day) {
        return place_behind(nodes, day, reference, guess);
    }
    if is_place(nodes, day, reference, guess) {
        return guess;
    }
    place_of(nodes, day, reference)
}

// The place of the first node that is not before a day, or their number, where the node at a place is before it.
#[inline(always)]
fn place_behind(nodes: &[CurveNode], day: Day, reference: Day, from: usize) -> usize
    requires rising { IsRisingFrom reference nodes.now }
    requires within { from < length nodes.now }
    requires before { AllWithin (λ node. node.day <ℤ day) nodes.now 0 (from + 1) }
    ensures bound { result ≤ length nodes.now }
    ensures before { AllWithin (λ node. node.day <ℤ day) nodes.now 0 result }
    ensures after { AllWithin (λ node. day ≤ℤ node.day) nodes.now result (length nodes.now) }
{
    let mut at = from + 1;
    while at < nodes.len() && is_before(nodes[at].day, day) {
        at += 1;
    }
    at
}

// Whether a place is that of the first node that is not before a day.
#[inline(always)]
fn is_place(nodes: &[CurveNode], day: Day, reference: Day, at: usize) -> bool
    requires { IsRisingFrom reference nodes.now }
    ensures bound { IsTrue result → at ≤ length nodes.now }
    ensures before { IsTrue result → AllWithin (λ node. node.day <ℤ day) nodes.now 0 at }
    ensures after { IsTrue result → AllWithin (λ node. day ≤ℤ node.day) nodes.now at (length nodes.now) }
{
    if at >= nodes.len() || is_before(nodes[at].day, day) {
        return false;
    }
    at == 0 || is_before(nodes[at - 1].day, day)
}

// The place of the first node that is not before a day, or their number.
fn place_of(nodes: &[CurveNode], day: Day, reference: Day) -> usize
    requires { IsRisingFrom reference nodes.now }
    ensures bound { result ≤ length nodes.now }
    ensures before { AllWithin (λ node. node.day <ℤ day) nodes.now 0 result }
    ensures after { AllWithin (λ node. day ≤ℤ node.day) nodes.now result (length nodes.now) }
{
    nodes.partition_point(
        |node: &CurveNode| -> bool
            ensures { result ≡ int_lt node.now.day day }
        { node.day < day },
    )
}

// The discount factor on the segment between two nodes.
fn on_segment(start: &CurveNode, end: &CurveNode, day: Day) -> Discount
    requires after { start.now.day <ℤ day }
    requires within { day ≤ℤ end.now.day }
    ensures { result ≡ on_segment start.now end.now day }
{
    let first = wide(start.factor);
    let last = wide(end.factor);
    Discount(factor_between(start.day, first, end.day, last, day) as i64)
}

// The units of a discount factor, for products.
pub(crate) fn wide(factor: Discount) -> i128
    ensures value { result ≡ factor }
    ensures low { pos 1 ≤ℤ result }
    ensures high { result ≤ℤ most }
{
    i128::from(factor.units())
}

// Whether a day is before another.
fn is_before(day: Day, other: Day) -> bool
    ensures { result ≡ int_lt day other }
{
    day < other
}
