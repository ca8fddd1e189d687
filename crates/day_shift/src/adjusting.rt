// Days adjusted by a convention.
ghost use Rattle.std.specs.Prelude.{◌≡◌, ◌↔◌, ◌&&◌, not, Ok, Err, ℤ};
ghost use Rattle.holiday_calendars.specs.Calendar.{is_business_day};
ghost use Rattle.day_shift.specs.Business.{next, previous};
ghost use Rattle.day_shift.specs.Month as month;
ghost use Rattle.day_shift.specs.Adjusted.{IsAdjusted, kept_or, nearer, adjusted, day_or_fault};

use crate::ShiftFault;
use crate::months::{is_across_middle, is_same_month};
use crate::searches::{next_open, previous_open};
use day_number::{Convention, Day};
use holiday_calendars::Calendar;

/// The day that a convention makes of a day (QuantLib's Calendar::adjust). `DateRange` exactly where it needs a
/// business day that is not there from 1901-01-01 to 2199-12-31.
pub fn adjust(calendar: &Calendar, day: Day, convention: Convention) -> Result<Day, ShiftFault>
    ensures found { (found : ℤ) → (result ≡ Ok found) ↔ IsAdjusted (is_business_day calendar.now) convention day found }
    ensures fault { (result ≡ Err ShiftFault.DateRange)
        ↔ ((found : ℤ) → ¬ (IsAdjusted (is_business_day calendar.now) convention day found)) }
    ensures value { result ≡ day_or_fault (adjusted (is_business_day calendar.now) convention day) }
{
    let _number = day.number();
    adjusted_day(calendar, day, convention).ok_or(ShiftFault::DateRange)
}

// The day that a convention makes of a day, where there is one.
#[tactic(auto, unfolding(crate::specs::Adjusted::adjusted))]
pub(crate) fn adjusted_day(calendar: &Calendar, day: Day, convention: Convention) -> Option<Day>
    ensures { result ≡ adjusted (is_business_day calendar.now) convention day }
{
    match convention {
        Convention::Unadjusted => Some(day),
        Convention::Following => next_open(calendar, day),
        Convention::Preceding => previous_open(calendar, day),
        Convention::ModifiedFollowing => modified_following(calendar, day),
        Convention::ModifiedPreceding => modified_preceding(calendar, day),
        Convention::HalfMonthModifiedFollowing => half_month_following(calendar, day),
        Convention::Nearest => nearest(calendar, day),
    }
}

// The next business day, or the previous one where that is in another month.
fn modified_following(calendar: &Calendar, day: Day) -> Option<Day>
    ensures { let business = is_business_day calendar.now in
        result ≡ kept_or (month.is_same_month day) (next business day) (previous business day) }
{
    let found = next_open(calendar, day)?;
    if is_same_month(day, found) {
        Some(found)
    } else {
        previous_open(calendar, day)
    }
}

// The previous business day, or the next one where that is in another month.
fn modified_preceding(calendar: &Calendar, day: Day) -> Option<Day>
    ensures { let business = is_business_day calendar.now in
        result ≡ kept_or (month.is_same_month day) (previous business day) (next business day) }
{
    let found = previous_open(calendar, day)?;
    if is_same_month(day, found) {
        Some(found)
    } else {
        next_open(calendar, day)
    }
}

// The next business day, or the previous one where that is in another month or the middle of the month lies between.
fn half_month_following(calendar: &Calendar, day: Day) -> Option<Day>
    ensures { let business = is_business_day calendar.now in
        result ≡ kept_or (λ later. month.is_same_month day later && not (month.is_across_middle day later))
        (next business day) (previous business day) }
{
    let found = next_open(calendar, day)?;
    if is_same_month(day, found) && !is_across_middle(day, found) {
        Some(found)
    } else {
        previous_open(calendar, day)
    }
}

// The nearest business day, the later of two.
fn nearest(calendar: &Calendar, day: Day) -> Option<Day>
    ensures { let business = is_business_day calendar.now in
        result ≡ nearer day (next business day) (previous business day) }
{
    match (next_open(calendar, day), previous_open(calendar, day)) {
        (Some(later), Some(earlier)) => Some(nearer_of(day, later, earlier)),
        (Some(later), None) => Some(later),
        (None, earlier) => earlier,
    }
}

// The nearer of two days, the later of them at equal distance.
fn nearer_of(day: Day, later: Day, earlier: Day) -> Day
    ensures { nearer day (Some later) (Some earlier) ≡ Some result }
{
    if later.number() - day.number() <= day.number() - earlier.number() {
        later
    } else {
        earlier
    }
}
