// The coupons of a curve's helpers, kept as long as its reference day stays.
ghost use Rattle.std.specs.Prelude.{◌≡◌, ◌≤◌, length, true, ℤ, Some, None, IfOk, IfSome};
ghost use Rattle.std.specs.List.{All};
ghost use Rattle.day_number.specs.Tenor.{IsTenor};
ghost use Rattle.holiday_calendars.specs.declared.calendars.Calendar.{Calendar as CalendarValue};
ghost use Rattle.curve_terms.specs.Terms.{IsHelper, IsOfMonths};
ghost use Rattle.curve_bootstrap.specs.Kept.{AreKept, IsPlan};

use crate::Coupon;
use crate::helpers::{coupon, deposit_end, swap_coupons};
use crate::nodes::is_not_after;
use curve_terms::{CurveTerms, Helper};
use day_number::{Day, Tenor};
use desk_names::ObjId;
use holiday_calendars::{Base, Calendar};
use std::alloc::{AllocError, Global};
use std::marker::Model;

// The greatest number of plans that are kept.
const MOST_PLANS: usize = 1024;

/// A helper and its coupons.
#[derive(Drop)]
pub struct HelperPlan {
    /// The helper.
    pub helper: Helper,
    /// Its coupons. None if it is refused, or memory ran out.
    pub coupons: Option<Vec<Coupon>>,
}

/// The coupons of helpers over a calendar from a reference day. Clauses see that day.
#[derive(Drop)]
pub(crate) struct CurvePlan {
    calendar: Calendar,
    reference: Day,
    helpers: Vec<HelperPlan>,
}

impl Model for CurvePlan {
    ghost use Rattle.std.specs.Prelude.{ℤ};
    ghost use Rattle.std.specs.List.{All};
    ghost use Rattle.curve_bootstrap.specs.Kept.{IsPlan};

    ghost Value = { ℤ };

    ghost view = { λ p. p.reference };

    ghost invariant = { λ p. All (IsPlan p.calendar p.reference) p.helpers.items };
}

// A plan with the number of its curve.
#[derive(Drop)]
struct OwnPlan {
    owner: ObjId,
    plan: CurvePlan,
}

/// The coupons of the curves that were built, from their last reference days, for at most 1,024 curves. They are compared with the
/// terms before they are used, so that a curve built from them is the curve of its terms.
#[derive(Drop)]
pub struct CurvePlans {
    // By the curves' numbers. `None` before the first is kept.
    plans: Option<Vec<OwnPlan>>,
}

impl CurvePlans {
    ghost use Rattle.std.specs.Prelude.{IfSome};
    ghost use Rattle.std.specs.List.{All};
    ghost use Rattle.curve_terms.specs.Terms.{IsHelper};
    ghost use Rattle.curve_bootstrap.specs.Kept.{IsPlan};

    /// Starts without plans, which takes no memory.
    pub fn new() -> CurvePlans {
        CurvePlans { plans: None }
    }

    // Returns the kept coupons of helpers over a calendar from a day, for a curve.
    pub(crate) fn helpers_of(
        &self,
        owner: ObjId,
        calendar: &Calendar,
        reference: Day,
    ) -> Option<&[HelperPlan]>
        ensures { IfSome result (λ plans. All (IsPlan calendar.now reference) plans.now) }
    {
        match &self.plans {
            Some(plans) => helpers_in(plans, owner, calendar, reference),
            None => None,
        }
    }

    // Keeps a curve's coupons from a day, if they are not kept yet and there is memory.
    pub(crate) fn keep(&mut self, alloc: Global, owner: ObjId, terms: &CurveTerms, reference: Day)
        requires { All IsHelper terms.now.helpers }
    {
        if !is_same(&terms.cal, &terms.cal) {
            return;
        }
        if self.plans.is_none() {
            self.plans = Some(Vec::new(alloc));
        }
        if let Some(plans) = &mut self.plans {
            keep_in(alloc, plans, owner, terms, reference);
        }
    }
}

// Returns the same from a list of plans.
fn helpers_in<'a>(
    plans: &'a [OwnPlan],
    owner: ObjId,
    calendar: &Calendar,
    reference: Day,
) -> Option<&'a [HelperPlan]>
    ensures { IfSome result (λ plans. All (IsPlan calendar.now reference) plans.now) }
{
    let at = place_of(plans, owner);
    if at >= plans.len() {
        return None;
    }
    helpers_from(&plans[at].plan, calendar, reference)
}

// Returns the coupons of a plan, if it is one over a calendar from a day.
fn helpers_from<'a>(
    plan: &'a CurvePlan,
    calendar: &Calendar,
    reference: Day,
) -> Option<&'a [HelperPlan]>
    ensures { IfSome result (λ plans. All (IsPlan calendar.now reference) plans.now) }
{
    if plan.reference == reference && is_same(&plan.calendar, calendar) {
        Some(&plan.helpers)
    } else {
        None
    }
}

// Keeps a plan in its place.
fn keep_in(
    alloc: Global,
    plans: &mut Vec<OwnPlan>,
    owner: ObjId,
    terms: &CurveTerms,
    reference: Day,
)
    requires { All IsHelper terms.now.helpers }
{
    let at = place_of(plans, owner);
    if is_kept(plans, at, owner, terms, reference) {
        return;
    }
    if let Ok(plan) = plan_of(alloc, terms, reference) {
        let own = OwnPlan { owner, plan };
        put(plans, at, own);
    }
}

// Puts a plan at its place: over that of its own curve, over another if no more are kept, and else between the others.
fn put(plans: &mut Vec<OwnPlan>, at: usize, own: OwnPlan)
    requires { at ≤ length plans.old.items }
{
    let count = plans.len();
    if at < count && (count >= MOST_PLANS || plans[at].owner == own.owner) {
        plans[at] = own;
    } else if count >= MOST_PLANS {
        plans[count - 1] = own;
    } else {
        let _ = plans.insert(at, own);
    }
}

// Returns how many plans are of curves with lower numbers.
fn place_of(plans: &[OwnPlan], owner: ObjId) -> usize
    ensures { result ≤ length plans.now }
{
    plans.partition_point(|own: &OwnPlan| own.owner < owner)
}

// Returns whether a plan of these terms from this day is at a place. Any result is right.
fn is_kept(plans: &[OwnPlan], at: usize, owner: ObjId, terms: &CurveTerms, reference: Day) -> bool {
    at < plans.len() && plans[at].owner == owner && is_plan_of(&plans[at].plan, terms, reference)
}

// Returns whether a plan is one of these terms from this day. Any result is right.
fn is_plan_of(plan: &CurvePlan, terms: &CurveTerms, reference: Day) -> bool {
    plan.reference == reference
        && is_same(&plan.calendar, &terms.cal)
        && are_of(&plan.helpers, terms.helpers.items())
}

// Returns whether plans are those of helpers in order. Any result is right.
fn are_of(plans: &[HelperPlan], helpers: &[Helper]) -> bool {
    if plans.len() != helpers.len() {
        return false;
    }
    for at in 0..helpers.len() {
        if !is_same_helper(&plans[at].helper, &helpers[at]) {
            return false;
        }
    }
    true
}

// Returns whether two helpers are equal.
fn is_same_helper(one: &Helper, other: &Helper) -> bool
    ensures { result ≡ true → one.now ≡ other.now }
{
    let tenors = same_tenors(one, other);
    let days = same_days(one, other);
    let rest = same_rest(one, other);
    are_all(tenors, days, rest)
}

// Returns whether all three are true.
fn are_all(first: bool, second: bool, third: bool) -> bool
    ensures { result ≡ true → (first ≡ true) × (second ≡ true) × (third ≡ true) }
{
    first && second && third
}

// Returns whether two helpers have equal tenors and frequencies.
fn same_tenors(one: &Helper, other: &Helper) -> bool
    ensures { result ≡ true → (one.now.tenor ≡ other.now.tenor) × (one.now.every ≡ other.now.every) }
{
    same_tenor(one.tenor, other.tenor) && same_period(one.every, other.every)
}

// Returns whether two helpers have equal rules for days.
fn same_days(one: &Helper, other: &Helper) -> bool
    ensures { result ≡ true → (one.now.conv ≡ other.now.conv) × (one.now.eom ≡ other.now.eom) }
{
    one.conv == other.conv && one.eom == other.eom
}

// Returns whether two helpers have equal day counters and the same quote.
fn same_rest(one: &Helper, other: &Helper) -> bool
    ensures { result ≡ true → (one.now.counter ≡ other.now.counter) × (one.now.quote ≡ other.now.quote) }
{
    one.counter == other.counter && one.quote == other.quote
}

// Returns whether two tenors are equal.
fn same_tenor(one: Tenor, other: Tenor) -> bool
    ensures { result ≡ true → one ≡ other }
{
    one == other
}

// Returns whether two periods are equal, or there is neither.
fn same_period(one: Option<Tenor>, other: Option<Tenor>) -> bool
    ensures { result ≡ true → one ≡ other }
{
    match (one, other) {
        (Some(one), Some(other)) => same_tenor(one, other),
        (None, None) => true,
        _ => false,
    }
}

// Returns whether two calendars are known to be equal. Those that list days or have parts are not compared.
fn is_same(one: &Calendar, other: &Calendar) -> bool
    ensures { result ≡ true → one.now ≡ other.now }
{
    match (one, other) {
        (Calendar::One(Base::Null), Calendar::One(Base::Null)) => true,
        (Calendar::One(Base::Weekends), Calendar::One(Base::Weekends)) => true,
        (Calendar::One(Base::Target), Calendar::One(Base::Target)) => true,
        _ => false,
    }
}

/// Returns the kept coupons of a helper at a place, if they are of an equal helper.
pub(crate) fn kept_coupons<'a>(
    plans: &'a [HelperPlan],
    at: usize,
    helper: &Helper,
) -> Option<&'a [Coupon]>
    ensures { (calendar : CalendarValue) (reference : ℤ) → All (IsPlan calendar reference) plans.now
        → IfSome result (λ coupons. AreKept calendar reference helper.now coupons.now) }
{
    if at >= plans.len() {
        return None;
    }
    let plan = &plans[at];
    if is_same_helper(&plan.helper, helper) {
        coupons_in(plan)
    } else {
        None
    }
}

// Returns the coupons in a plan.
fn coupons_in(plan: &HelperPlan) -> Option<&[Coupon]>
    ensures { (calendar : CalendarValue) (reference : ℤ) → IsPlan calendar reference plan.now
        → IfSome result (λ coupons. AreKept calendar reference plan.now.helper coupons.now) }
{
    match &plan.coupons {
        Some(coupons) => Some(coupons.as_slice()),
        None => None,
    }
}

// Makes the plan of terms from a day.
fn plan_of(alloc: Global, terms: &CurveTerms, reference: Day) -> Result<CurvePlan, AllocError>
    requires { All IsHelper terms.now.helpers }
{
    let calendar = terms.cal.copy(alloc)?;
    let helpers = helper_plans(alloc, &terms.cal, reference, terms.helpers.items())?;
    Ok(CurvePlan {
        calendar,
        reference,
        helpers,
    })
}

// Makes the plans of helpers from a day.
fn helper_plans(
    alloc: Global,
    calendar: &Calendar,
    reference: Day,
    helpers: &[Helper],
) -> Result<Vec<HelperPlan>, AllocError>
    requires { All IsHelper helpers.now }
    ensures { IfOk result (λ plans. All (IsPlan calendar.now reference) plans.items) }
{
    let mut plans = Vec::with_capacity(alloc, helpers.len())?;
    for helper in helpers {
        plans.push(helper_plan(alloc, calendar, reference, helper))?;
    }
    Ok(plans)
}

// Makes the plan of a helper from a day.
fn helper_plan(alloc: Global, calendar: &Calendar, reference: Day, helper: &Helper) -> HelperPlan
    requires { IsHelper helper.now }
    ensures { IsPlan calendar.now reference result }
{
    HelperPlan {
        helper: *helper,
        coupons: coupons_of(alloc, calendar, reference, helper),
    }
}

// Returns the coupons of a helper from a day. None if it is refused, or memory ran out.
fn coupons_of(
    alloc: Global,
    calendar: &Calendar,
    reference: Day,
    helper: &Helper,
) -> Option<Vec<Coupon>>
    requires { IsHelper helper.now }
    ensures { IfSome result (λ coupons. AreKept calendar.now reference helper.now coupons.items) }
{
    match helper.every {
        None => deposit_coupon(alloc, calendar, reference, helper),
        Some(every) => swap_kept(alloc, calendar, reference, helper, every),
    }
}

// Returns the coupons of a swap from a day. None if it is refused, or memory ran out.
fn swap_kept(
    alloc: Global,
    calendar: &Calendar,
    reference: Day,
    helper: &Helper,
    every: Tenor,
) -> Option<Vec<Coupon>>
    requires tenor { IsOfMonths helper.now.tenor }
    requires every { IsOfMonths every }
    requires kind { helper.now.every ≡ Some every }
    ensures { IfSome result (λ coupons. AreKept calendar.now reference helper.now coupons.items) }
{
    match swap_coupons(alloc, calendar, reference, helper, every) {
        Ok(coupons) => Some(coupons),
        Err(_) => None,
    }
}

// Returns the coupon of a deposit from a day. None if it does not end after that day, or memory ran out.
fn deposit_coupon(
    alloc: Global,
    calendar: &Calendar,
    reference: Day,
    helper: &Helper,
) -> Option<Vec<Coupon>>
    requires tenor { IsTenor helper.now.tenor }
    requires kind { helper.now.every ≡ None }
    ensures { IfSome result (λ coupons. AreKept calendar.now reference helper.now coupons.items) }
{
    let Some(end) = deposit_end(calendar, reference, helper) else {
        return None;
    };
    if is_not_after(end, reference) {
        return None;
    }
    let only = coupon(helper.counter, calendar, reference, end);
    match Vec::from_array(alloc, [only]) {
        Ok(coupons) => Some(coupons),
        Err(_) => None,
    }
}
