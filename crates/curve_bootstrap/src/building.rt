// Builds a curve from its terms.
ghost use Rattle.std.specs.Prelude.{◌≡◌, ◌≤◌, pos, length, false, [], ◌<ℤ◌, IfOk, IfSome, IfNone, Some, None, Ok, Err};
ghost use Rattle.std.specs.List.{All};
ghost use Rattle.day_number.specs.declared.conventions.Convention.TheVariants.{Following};
ghost use Rattle.day_number.specs.declared.tenors.Unit.TheVariants.{Days};
ghost use Rattle.day_shift.specs.Advanced.{advanced};
ghost use Rattle.holiday_calendars.specs.Calendar.{is_business_day};
ghost use Rattle.day_number.specs.Tenor.{IsTenor};
ghost use Rattle.curve_terms.specs.Terms.{IsInRange, IsHelper, IsOfMonths};
ghost use Rattle.curve_points.specs.Curve.{IsRisingFrom, origin};
ghost use Rattle.curve_bootstrap.specs.Coupon.{AreCoupons};
ghost use Rattle.curve_bootstrap.specs.Node.{last_of};
ghost use Rattle.curve_bootstrap.specs.Built as due;
ghost use Rattle.curve_bootstrap.specs.Laws.{IsBuilt};
ghost use Rattle.curve_bootstrap.specs.Kept.{AreKept, IsPlan};

use crate::faults::{HelperFault, numbered};
use crate::helpers::{coupon, deposit_end, swap_coupons};
use crate::nodes::{is_not_after, node};
use crate::plans::{CurvePlans, HelperPlan, kept_coupons};
use crate::{BuildFault, Coupon};
use curve_points::{CurveNode, CurveValue, NodeList, ONE};
use curve_terms::{CurveStart, CurveTerms, Helper};
use day_number::{Convention, Day, Tenor, Unit};
use day_shift::advance;
use desk_names::ObjId;
use fixed_amount::{Discount, Rate};
use holiday_calendars::Calendar;
use std::alloc::Global;

/// Builds the curve of these terms on an evaluation date, from the rates of its helpers in order (QuantLib's
/// `PiecewiseYieldCurve` over discount factors). The reference day is the date plus the settlement days, or the curve's own day,
/// which may be a holiday. Every helper starts there. The factor at a helper's end is the least whole number of units of 10^-12,
/// from 1 to 4 * 10^12, at which the helper is worth at least 1 on the curve so far.
///
/// # Errors
///
/// `BuildFault` for the first helper that has no node, or `NoMemory` where memory runs out. A reference day or an end of the first
/// helper's tenor out of range, and the fault of a first deposit, are found without memory.
pub fn build(
    alloc: Global,
    owner: ObjId,
    terms: &CurveTerms,
    today: Day,
    rates: &[Rate],
) -> Result<CurveValue, BuildFault>
    requires range { IsInRange terms.now }
    requires rates { length rates.now ≡ length terms.now.helpers }
    ensures curve { due.Gives (due.built_curve owner terms.now today rates.now) result }
    ensures nodes { IfOk result (λ curve. IsBuilt terms.now today rates.now curve) }
    ensures reference { IfNone (due.reference_day terms.now today) (result ≡ Err BuildFault.DateRange) }
    ensures day { IfSome (due.reference_day terms.now today) (λ reference.
        IfNone (due.first_led terms.now.cal reference terms.now.helpers) (result ≡ Err BuildFault.DateRange)) }
    ensures memory { due.takes_memory terms.now today rates.now ≡ false → result ≡ due.built_curve owner terms.now today rates.now }
{
    match reference_day(terms, today) {
        Some(reference) => built(alloc, owner, terms, reference, rates, &[]),
        None => Err(BuildFault::DateRange),
    }
}

/// Builds the same curve from the coupons of curves that were built before. New coupons are kept, if there is memory for them.
///
/// # Errors
///
/// Those of `build`.
pub fn build_by(
    alloc: Global,
    owner: ObjId,
    terms: &CurveTerms,
    today: Day,
    rates: &[Rate],
    kept: &mut CurvePlans,
) -> Result<CurveValue, BuildFault>
    requires range { IsInRange terms.now }
    requires rates { length rates.now ≡ length terms.now.helpers }
    ensures curve { due.Gives (due.built_curve owner terms.now today rates.now) result }
    ensures nodes { IfOk result (λ curve. IsBuilt terms.now today rates.now curve) }
    ensures reference { IfNone (due.reference_day terms.now today) (result ≡ Err BuildFault.DateRange) }
{
    match reference_day(terms, today) {
        Some(reference) => built_by(alloc, owner, terms, reference, rates, kept),
        None => Err(BuildFault::DateRange),
    }
}

// Builds the curve from a reference day with kept coupons.
fn built_by(
    alloc: Global,
    owner: ObjId,
    terms: &CurveTerms,
    reference: Day,
    rates: &[Rate],
    kept: &mut CurvePlans,
) -> Result<CurveValue, BuildFault>
    requires range { IsInRange terms.now }
    requires rates { length rates.now ≡ length terms.now.helpers }
    ensures { due.Gives (due.curve_of owner reference
        (due.nodes_of (due.coupons_of terms.now.cal reference) (origin reference) 1 [] terms.now.helpers rates.now)) result }
{
    kept.keep(alloc, owner, terms, reference);
    match kept.helpers_of(owner, &terms.cal, reference) {
        Some(plans) => built(alloc, owner, terms, reference, rates, plans),
        None => built(alloc, owner, terms, reference, rates, &[]),
    }
}

// Returns the reference day, if it is in range: so many business days after the evaluation date, or the curve's own.
fn reference_day(terms: &CurveTerms, today: Day) -> Option<Day>
    ensures { result ≡ due.reference_day terms.now today }
{
    match terms.start {
        CurveStart::Moving(settlement) => settled_day(&terms.cal, settlement, today),
        CurveStart::Fixed(day) => Some(day),
    }
}

// Returns the day so many business days after the evaluation date, if it is in range.
fn settled_day(cal: &Calendar, settlement: u8, today: Day) -> Option<Day>
    ensures { result ≡ advanced (is_business_day cal.now) Days Following false today (pos settlement) }
{
    let on = i32::from(settlement);
    advance(cal, today, on, Unit::Days, Convention::Following, false).ok()
}

// Builds the curve from a reference day with the plans of its helpers.
fn built(
    alloc: Global,
    owner: ObjId,
    terms: &CurveTerms,
    reference: Day,
    rates: &[Rate],
    plans: &[HelperPlan],
) -> Result<CurveValue, BuildFault>
    requires range { IsInRange terms.now }
    requires rates { length rates.now ≡ length terms.now.helpers }
    requires plans { All (IsPlan terms.now.cal reference) plans.now }
    ensures given { due.Gives (due.curve_of owner reference
        (due.nodes_of (due.coupons_of terms.now.cal reference) (origin reference) 1 [] terms.now.helpers rates.now)) result }
    ensures day { IfNone (due.first_led terms.now.cal reference terms.now.helpers) (result ≡ Err BuildFault.DateRange) }
    ensures memory { due.first_takes terms.now.cal reference terms.now.helpers rates.now ≡ false
        → result ≡ due.curve_of owner reference (due.nodes_of (due.coupons_of terms.now.cal reference) (origin reference) 1 [] terms.now.helpers rates.now) }
{
    match nodes_from(
        alloc,
        &terms.cal,
        reference,
        terms.helpers.items(),
        rates,
        plans,
    ) {
        Ok(nodes) => Ok(CurveValue::new(owner, reference, nodes)),
        Err(fault) => Err(fault),
    }
}

// Returns the nodes of all helpers.
fn nodes_from(
    alloc: Global,
    calendar: &Calendar,
    reference: Day,
    helpers: &[Helper],
    rates: &[Rate],
    plans: &[HelperPlan],
) -> Result<NodeList, BuildFault>
    requires range { All IsHelper helpers.now }
    requires plans { All (IsPlan calendar.now reference) plans.now }
    requires count { length helpers.now ≤ 64 }
    requires rates { length rates.now ≡ length helpers.now }
    ensures given { due.Gives (due.nodes_of (due.coupons_of calendar.now reference) (origin reference) 1 [] helpers.now rates.now) result }
    ensures rising { IfOk result (λ nodes. IsRisingFrom reference nodes) }
    ensures day { IfNone (due.first_led calendar.now reference helpers.now) (result ≡ Err BuildFault.DateRange) }
    ensures memory { due.first_takes calendar.now reference helpers.now rates.now ≡ false
        → result ≡ due.nodes_of (due.coupons_of calendar.now reference) (origin reference) 1 [] helpers.now rates.now }
{
    let first = CurveNode {
        day: reference,
        factor: Discount(ONE),
    };
    let mut nodes = NodeList::new(alloc);
    let mut last = first;
    for (at, helper) in helpers.iter().enumerate() {
        match next_node(
            alloc,
            calendar,
            &first,
            nodes.items(),
            &last,
            helper,
            rates[at],
            kept_coupons(plans, at, helper),
        ) {
            Ok(found) => {
                last = found;
                nodes.push(found)?;
            }
            Err(fault) => return Err(numbered(fault, at as u32 + 1)),
        }
    }
    Ok(nodes)
}

// Returns the node of one helper after others, from its coupons where they are kept.
fn next_node(
    alloc: Global,
    calendar: &Calendar,
    from: &CurveNode,
    nodes: &[CurveNode],
    last: &CurveNode,
    helper: &Helper,
    rate: Rate,
    kept: Option<&[Coupon]>,
) -> Result<CurveNode, HelperFault>
    requires range { IsHelper helper.now }
    requires rising { IsRisingFrom from.now.day nodes.now }
    requires last { last.now ≡ last_of from.now nodes.now }
    requires kept { IfSome kept (λ coupons. AreKept calendar.now from.now.day helper.now coupons.now) }
    ensures given { due.GivesHelper (λ node. node) (due.node_by from.now nodes.now rate (due.coupons_of calendar.now from.now.day helper.now)) result }
    ensures after { IfOk result (λ node. last.now.day <ℤ node.day) }
    ensures day { IfNone (due.led_to calendar.now from.now.day helper.now) (result ≡ Err HelperFault.DateRange) }
    ensures memory { due.takes_for calendar.now from.now nodes.now rate helper.now helper.now.every ≡ false
        → result ≡ due.node_by from.now nodes.now rate (due.coupons_of calendar.now from.now.day helper.now) }
{
    match kept {
        Some(coupons) => node_by(from, nodes, last, rate, coupons),
        None => fresh_node(alloc, calendar, from, nodes, last, helper, rate),
    }
}

// Returns the node of one helper after others, from new coupons.
fn fresh_node(
    alloc: Global,
    calendar: &Calendar,
    from: &CurveNode,
    nodes: &[CurveNode],
    last: &CurveNode,
    helper: &Helper,
    rate: Rate,
) -> Result<CurveNode, HelperFault>
    requires range { IsHelper helper.now }
    requires rising { IsRisingFrom from.now.day nodes.now }
    requires last { last.now ≡ last_of from.now nodes.now }
    ensures given { due.GivesHelper (λ node. node) (due.node_by from.now nodes.now rate (due.coupons_of calendar.now from.now.day helper.now)) result }
    ensures after { IfOk result (λ node. last.now.day <ℤ node.day) }
    ensures day { IfNone (due.led_to calendar.now from.now.day helper.now) (result ≡ Err HelperFault.DateRange) }
    ensures memory { due.takes_for calendar.now from.now nodes.now rate helper.now helper.now.every ≡ false
        → result ≡ due.node_by from.now nodes.now rate (due.coupons_of calendar.now from.now.day helper.now) }
{
    match helper.every {
        None => deposit_node(calendar, from, nodes, last, helper, rate),
        Some(every) => swap_node(alloc, calendar, from, nodes, last, helper, every, rate),
    }
}

// Returns the node of a deposit after others.
fn deposit_node(
    calendar: &Calendar,
    from: &CurveNode,
    nodes: &[CurveNode],
    last: &CurveNode,
    helper: &Helper,
    rate: Rate,
) -> Result<CurveNode, HelperFault>
    requires range { IsTenor helper.now.tenor }
    requires rising { IsRisingFrom from.now.day nodes.now }
    requires last { last.now ≡ last_of from.now nodes.now }
    ensures given { result ≡ due.node_by from.now nodes.now rate (due.coupons_by calendar.now from.now.day helper.now None) }
    ensures after { IfOk result (λ node. last.now.day <ℤ node.day) }
{
    let Some(end) = deposit_end(calendar, from.day, helper) else {
        return Err(HelperFault::DateRange);
    };
    // The order is checked first, since an end may be before a reference day that is a holiday.
    if is_not_after(end, last.day) {
        return Err(HelperFault::Pillar);
    }
    let only = coupon(helper.counter, calendar, from.day, end);
    node_by(from, nodes, last, rate, &[only])
}

// Returns the node of a par swap after others.
fn swap_node(
    alloc: Global,
    calendar: &Calendar,
    from: &CurveNode,
    nodes: &[CurveNode],
    last: &CurveNode,
    helper: &Helper,
    every: Tenor,
    rate: Rate,
) -> Result<CurveNode, HelperFault>
    requires tenor { IsOfMonths helper.now.tenor }
    requires every { IsOfMonths every }
    requires rising { IsRisingFrom from.now.day nodes.now }
    requires last { last.now ≡ last_of from.now nodes.now }
    ensures given { due.GivesHelper (λ node. node) (due.node_by from.now nodes.now rate (due.coupons_by calendar.now from.now.day helper.now (Some every))) result }
    ensures after { IfOk result (λ node. last.now.day <ℤ node.day) }
    ensures day { IfNone (due.led_by calendar.now from.now.day helper.now (Some every)) (result ≡ Err HelperFault.DateRange) }
{
    match swap_coupons(alloc, calendar, from.day, helper, every) {
        Ok(coupons) => node_by(from, nodes, last, rate, &coupons),
        Err(fault) => Err(fault),
    }
}

// Returns the node of one helper from its coupons.
fn node_by(
    from: &CurveNode,
    nodes: &[CurveNode],
    last: &CurveNode,
    rate: Rate,
    coupons: &[Coupon],
) -> Result<CurveNode, HelperFault>
    requires rising { IsRisingFrom from.now.day nodes.now }
    requires last { last.now ≡ last_of from.now nodes.now }
    requires coupons { AreCoupons from.now.day (due.end_of from.now.day coupons.now) coupons.now }
    ensures given { result ≡ due.node_by from.now nodes.now rate (Ok coupons.now) }
    ensures after { IfOk result (λ node. last.now.day <ℤ node.day) }
{
    let end = end_of(from.day, coupons);
    match node(from, nodes, last, end, rate, coupons) {
        Ok(factor) => Ok(CurveNode { day: end, factor }),
        Err(fault) => Err(fault),
    }
}

// Returns the day of the last coupon.
pub(crate) fn end_of(reference: Day, coupons: &[Coupon]) -> Day
    ensures { result ≡ due.end_of reference coupons.now }
{
    let count = coupons.len();
    if count == 0 {
        return reference;
    }
    coupons[count - 1].day
}
