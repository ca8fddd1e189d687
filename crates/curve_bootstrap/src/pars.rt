// Par rates: the rate at which a helper is worth 1 on a curve.
ghost use Rattle.std.specs.Prelude.{◌≡◌, ◌≤◌, ◌*◌, ◌^◌, ◌≤ℤ◌, ◌-ℤ◌, ◌*ℤ◌, pos, unsigned_abs, Some, None, Ok, IfOk};
ghost use Rattle.day_number.specs.Tenor.{IsTenor};
ghost use Rattle.curve_points.specs.Segment.{one};
ghost use Rattle.curve_terms.specs.Terms.{IsHelper, IsOfMonths};
ghost use Rattle.curve_bootstrap.specs.Coupon.{AreCoupons};
ghost use Rattle.curve_bootstrap.specs.Node.{whole};
ghost use Rattle.curve_bootstrap.specs.Par as par;
ghost use Rattle.curve_bootstrap.specs.Par.{IsWithinTen};
ghost use Rattle.curve_bootstrap.specs.Built as due;

use crate::Coupon;
use crate::building::end_of;
use crate::excesses::WHOLE;
use crate::faults::HelperFault;
use crate::helpers::{coupon, deposit_end, swap_coupons};
use crate::nodes::is_not_after;
use crate::sums::{settled_total, wide};
use curve_points::{CurveNode, CurveValue, ONE, discount};
use curve_terms::Helper;
use day_number::{Day, Tenor};
use fixed_amount::{Discount, Rate, Rounding, div_round};
use holiday_calendars::Calendar;
use std::alloc::Global;

/// The rate at which a helper is worth 1 on a curve, at most 10 in size, and the day on which the helper ends.
#[derive(Clone, Copy)]
pub struct ParRate {
    pub end: Day,
    pub rate: Rate,
}

/// Returns the par rate of a helper that starts at the reference day of a curve.
///
/// # Errors
///
/// `DateRange` where a day of the helper is out of range, `Pillar` where its end is not after its start, `Discount` where the
/// curve ends before the helper, `RateRange` where its coupons are for no part of a year or the rate is beyond 10 in size, and
/// `NoMemory` where memory runs out.
pub fn par_rate(
    alloc: Global,
    calendar: &Calendar,
    curve: &CurveValue,
    helper: &Helper,
) -> Result<ParRate, HelperFault>
    requires { IsHelper helper.now }
    ensures given { due.GivesHelper (λ found. found) (par.par_rate calendar.now curve.now helper.now) result }
    ensures range { IfOk result IsWithinTen }
{
    match helper.every {
        None => deposit_par(calendar, curve, helper),
        Some(every) => swap_par(alloc, calendar, curve, helper, every),
    }
}

// Returns the par rate of a deposit.
fn deposit_par(
    calendar: &Calendar,
    curve: &CurveValue,
    helper: &Helper,
) -> Result<ParRate, HelperFault>
    requires { IsTenor helper.now.tenor }
    ensures value { result ≡ par.par_over curve.now (due.coupons_by calendar.now curve.now.reference helper.now None) }
    ensures range { IfOk result IsWithinTen }
{
    let reference = curve.reference();
    let Some(end) = deposit_end(calendar, reference, helper) else {
        return Err(HelperFault::DateRange);
    };
    // An end may be before a reference day that is a holiday.
    if is_not_after(end, reference) {
        return Err(HelperFault::Pillar);
    }
    let only = coupon(helper.counter, calendar, reference, end);
    par_to(curve, end, &[only])
}

// Returns the par rate of a swap.
fn swap_par(
    alloc: Global,
    calendar: &Calendar,
    curve: &CurveValue,
    helper: &Helper,
    every: Tenor,
) -> Result<ParRate, HelperFault>
    requires tenor { IsOfMonths helper.now.tenor }
    requires every { IsOfMonths every }
    ensures given { due.GivesHelper (λ found. found)
        (par.par_over curve.now (due.coupons_by calendar.now curve.now.reference helper.now (Some every))) result }
    ensures range { IfOk result IsWithinTen }
{
    let reference = curve.reference();
    match swap_coupons(alloc, calendar, reference, helper, every) {
        Ok(coupons) => par_to(curve, end_of(reference, &coupons), &coupons),
        Err(fault) => Err(fault),
    }
}

// Returns the par rate of coupons that end on a day.
fn par_to(curve: &CurveValue, end: Day, coupons: &[Coupon]) -> Result<ParRate, HelperFault>
    requires { AreCoupons curve.now.reference end coupons.now }
    ensures value { result ≡ par.par_to curve.now end coupons.now }
    ensures range { IfOk result IsWithinTen }
{
    if is_not_after(end, curve.reference()) {
        return Err(HelperFault::Pillar);
    }
    let from = CurveNode {
        day: curve.reference(),
        factor: Discount(ONE),
    };
    let worth = settled_total(&from, curve.nodes(), coupons);
    match discount(curve, end) {
        Ok(last) => par_at(end, last, worth),
        Err(_) => Err(HelperFault::Discount),
    }
}

// Returns the par rate from the factor at the end and the value of the coupons at a rate of 1.
fn par_at(end: Day, last: Discount, worth: i128) -> Result<ParRate, HelperFault>
    ensures value { result ≡ par.par_at end (Ok last) worth }
    ensures range { IfOk result IsWithinTen }
{
    if worth <= 0 {
        return Err(HelperFault::RateRange);
    }
    within_ten(end, div_round(unpaid(last), worth, Rounding::Closest))
}

// Returns 1 less the factor at the end, times the units of a rate of 1 for a whole year.
fn unpaid(last: Discount) -> i128
    ensures { result ≡ (one -ℤ last) *ℤ whole }
{
    (i128::from(ONE) - wide(last)) * WHOLE
}

// Returns a rate of so many units with its day, if it is at most 10 in size.
fn within_ten(end: Day, units: i128) -> Result<ParRate, HelperFault>
    ensures value { result ≡ par.within_ten end units }
    ensures range { IfOk result IsWithinTen }
{
    if units.unsigned_abs() > 10_000_000_000 {
        return Err(HelperFault::RateRange);
    }
    Ok(ParRate {
        end,
        rate: Rate(units as i64),
    })
}
