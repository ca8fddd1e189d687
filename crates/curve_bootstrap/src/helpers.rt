// Makes the coupons of a helper.
ghost use Rattle.std.specs.Prelude.{◌≡◌, ◌≤ℤ◌, pos, IfOk, IfNone, Some, None, Ok, Err};
ghost use Rattle.std.specs.List.Sorted.{IsStrictlySortedBy};
ghost use Rattle.std.specs.Ordering.{int_cmp};
ghost use Rattle.day_counters.specs.Counter.{frac};
ghost use Rattle.day_number.specs.Tenor.{IsTenor};
ghost use Rattle.holiday_calendars.specs.Calendar.{is_business_day};
ghost use Rattle.schedule_rules.specs.Step.{units_on};
ghost use Rattle.curve_terms.specs.Terms.{IsOfMonths};
ghost use Rattle.curve_bootstrap.specs.Coupon.{AreCoupons};
ghost use Rattle.curve_bootstrap.specs.Built as due;

use crate::Coupon;
use crate::faults::HelperFault;
use curve_terms::Helper;
use day_counters::fraction;
use day_number::{Day, Tenor, Unit, add_days, add_months};
use day_shift::{adjust, advance};
use holiday_calendars::Calendar;
use schedule_rules::{Plan, PlanFault, Rule, make};
use std::alloc::Global;
use year_parts::Counter;

/// Returns the end of a deposit that starts at the reference day, if it is in range.
pub(crate) fn deposit_end(calendar: &Calendar, reference: Day, helper: &Helper) -> Option<Day>
    requires { IsTenor helper.now.tenor }
    ensures { result ≡ due.led_by calendar.now reference helper.now None }
{
    let tenor = helper.tenor;
    match advance(
        calendar,
        reference,
        tenor.count,
        tenor.unit,
        helper.conv,
        helper.eom,
    ) {
        Ok(day) => Some(day),
        Err(_) => None,
    }
}

/// Returns the coupon of a period.
pub(crate) fn coupon(counter: Counter, calendar: &Calendar, from: Day, to: Day) -> Coupon
    requires { from ≤ℤ to }
    ensures { result ≡ record { day = to; parts = pos (frac counter (is_business_day calendar.now) from to) } }
{
    Coupon {
        day: to,
        parts: fraction(counter, calendar, from, to),
    }
}

/// Returns the coupons of a par swap that starts at the reference day. An end out of range is found without memory.
pub(crate) fn swap_coupons(
    alloc: Global,
    calendar: &Calendar,
    reference: Day,
    helper: &Helper,
    every: Tenor,
) -> Result<Vec<Coupon>, HelperFault>
    requires tenor { IsOfMonths helper.now.tenor }
    requires every { IsOfMonths every }
    ensures given { due.GivesHelper (λ cs. cs.items) (due.coupons_by calendar.now reference helper.now (Some every)) result }
    ensures day { IfNone (due.led_by calendar.now reference helper.now (Some every)) (result ≡ Err HelperFault.DateRange) }
    ensures fits { IfOk result (λ cs. AreCoupons reference (due.end_of reference cs.items) cs.items) }
{
    let _start = reference.number();
    let Some(end) = swap_end(calendar, reference, helper) else {
        return Err(HelperFault::DateRange);
    };
    let _end = end.number();
    let plan = Plan {
        start: reference,
        end,
        tenor: every,
        cal: calendar,
        conv: helper.conv,
        end_conv: helper.conv,
        rule: Rule::Backward,
        eom: helper.eom,
        first: None,
        last: None,
    };
    match make(alloc, &plan) {
        Ok(schedule) => period_coupons(alloc, helper.counter, calendar, schedule.dates()),
        Err(fault) => Err(refused_by(fault)),
    }
}

// Returns the fault of a helper whose terms are in range for a fault of its schedule.
fn refused_by(fault: PlanFault) -> HelperFault
    requires { due.Comes fault }
    ensures { result ≡ due.fault_of fault }
{
    match fault {
        PlanFault::DateRange => HelperFault::DateRange,
        PlanFault::Collapsed => HelperFault::Pillar,
        PlanFault::NoMemory => HelperFault::NoMemory,
        PlanFault::Order | PlanFault::Tenor | PlanFault::Stub | PlanFault::TooMany =>
            unreachable!(),
    }
}

// Returns the unadjusted end of a swap, if its adjusted end is in range.
fn swap_end(calendar: &Calendar, reference: Day, helper: &Helper) -> Option<Day>
    requires { IsOfMonths helper.now.tenor }
    ensures { result ≡ due.swap_end calendar.now reference helper.now }
{
    let end = moved(reference, helper.tenor)?;
    match adjust(calendar, end, helper.conv) {
        Ok(_) => Some(end),
        Err(_) => None,
    }
}

// Returns the unadjusted day a tenor of months later.
fn moved(day: Day, tenor: Tenor) -> Option<Day>
    requires { IsOfMonths tenor }
    ensures { result ≡ units_on tenor.unit day tenor.count }
{
    match tenor.unit {
        Unit::Months => add_months(day, tenor.count).ok(),
        Unit::Years => add_months(day, tenor.count * 12).ok(),
        Unit::Days | Unit::Weeks => unreachable!(),
    }
}

// Returns a coupon for each period of a schedule.
fn period_coupons(
    alloc: Global,
    counter: Counter,
    calendar: &Calendar,
    dates: &[Day],
) -> Result<Vec<Coupon>, HelperFault>
    requires { IsStrictlySortedBy int_cmp dates.now }
    ensures { due.GivesHelper (λ cs. cs.items) (Ok (due.periods counter (is_business_day calendar.now) dates.now)) result }
{
    let mut coupons = Vec::with_capacity(alloc, dates.len())?;
    for at in 1..dates.len() {
        coupons.push(coupon(counter, calendar, dates[at - 1], dates[at]))?;
    }
    Ok(coupons)
}
