// Days moved by a count of a unit.
ghost use Rattle.std.specs.Prelude.{◌≡◌, ◌↔◌, Ok, Err, ℤ, pos, ◌+ℤ◌, ◌*ℤ◌};
ghost use Rattle.holiday_calendars.specs.Calendar.{is_business_day};
ghost use Rattle.day_shift.specs.Business.{day_at};
ghost use Rattle.day_shift.specs.Advanced as advanced;
ghost use Rattle.day_shift.specs.MonthEnd as ends;
ghost use Rattle.day_shift.specs.Adjusted.{day_or_fault};

use crate::ShiftFault;
use crate::adjusting::adjusted_day;
use crate::months::{last_open, month_at};
use crate::searches::{open_after, open_before, shifted};
use day_number::{Convention, Day, Unit};
use holiday_calendars::Calendar;

/// The day `n` days, weeks, months or years after a day, or before it where `n` is negative (QuantLib's
/// Calendar::advance). Days are business days, and the convention is not used. Weeks, months and years are those of the
/// calendar, a month's day clipped to the month's last, and the day is then adjusted; with `month_end`, months and years
/// from the last business day of a month or a later day of it lead to the last business day of a month. `n` of 0 adjusts
/// the day. `DateRange` exactly where there is no such day from 1901-01-01 to 2199-12-31.
pub fn advance(
    calendar: &Calendar,
    day: Day,
    n: i32,
    unit: Unit,
    convention: Convention,
    month_end: bool,
) -> Result<Day, ShiftFault>
    ensures found { (found : ℤ) → (result ≡ Ok found)
        ↔ advanced.IsAdvanced (is_business_day calendar.now) unit convention month_end day n found }
    ensures fault { (result ≡ Err ShiftFault.DateRange) ↔ ((found : ℤ)
        → ¬ (advanced.IsAdvanced (is_business_day calendar.now) unit convention month_end day n found)) }
    ensures value { result ≡ day_or_fault (advanced.advanced (is_business_day calendar.now) unit convention month_end day n) }
{
    let _number = day.number();
    advanced_day(calendar, day, n, unit, convention, month_end).ok_or(ShiftFault::DateRange)
}

// The day a count of a unit on, which may be 0, where there is one.
#[tactic(auto, unfolding(crate::specs::Advanced::advanced))]
fn advanced_day(
    calendar: &Calendar,
    day: Day,
    n: i32,
    unit: Unit,
    convention: Convention,
    month_end: bool,
) -> Option<Day>
    ensures { result ≡ advanced.advanced (is_business_day calendar.now) unit convention month_end day n }
{
    if n == 0 {
        return adjusted_day(calendar, day, convention);
    }
    moved(calendar, day, n, unit, convention, month_end)
}

// The day a count of a unit on, the count not 0, where there is one.
fn moved(
    calendar: &Calendar,
    day: Day,
    n: i32,
    unit: Unit,
    convention: Convention,
    month_end: bool,
) -> Option<Day>
    ensures { result ≡ advanced.moved (is_business_day calendar.now) unit convention month_end day n }
{
    match unit {
        Unit::Days => days_on(calendar, day, n),
        Unit::Weeks => adjusted_day(calendar, weeks_later(day, n)?, convention),
        Unit::Months => months_on(calendar, day, n, convention, month_end),
        Unit::Years => years_on(calendar, day, n, convention, month_end),
    }
}

// The day a number of weeks later, where there is one.
fn weeks_later(day: Day, n: i32) -> Option<Day>
    ensures { result ≡ day_at (day +ℤ n *ℤ pos 7) }
{
    if n < -20_000 || n > 20_000 {
        return None;
    }
    shifted(day, n * 7)
}

// The business day a number of them on.
fn days_on(calendar: &Calendar, day: Day, n: i32) -> Option<Day>
    ensures { result ≡ advanced.days_on (is_business_day calendar.now) day n }
{
    if n < 0 {
        days_before(calendar, day, n.unsigned_abs())
    } else {
        days_after(calendar, day, n.unsigned_abs())
    }
}

// The business day a number of them after a day.
fn days_after(calendar: &Calendar, day: Day, n: u32) -> Option<Day>
    ensures { result ≡ advanced.days_after n (is_business_day calendar.now) day }
{
    let mut there = day;
    let mut left = n;
    while left > 0 {
        there = open_after(calendar, there)?;
        left -= 1;
    }
    Some(there)
}

// The business day a number of them before a day.
fn days_before(calendar: &Calendar, day: Day, n: u32) -> Option<Day>
    ensures { result ≡ advanced.days_before n (is_business_day calendar.now) day }
{
    let mut there = day;
    let mut left = n;
    while left > 0 {
        there = open_before(calendar, there)?;
        left -= 1;
    }
    Some(there)
}

// The day a number of months on.
fn months_on(
    calendar: &Calendar,
    day: Day,
    n: i32,
    convention: Convention,
    month_end: bool,
) -> Option<Day>
    ensures { result ≡ advanced.months_on (is_business_day calendar.now) convention month_end day n }
{
    let target = month_at(day, n)?;
    if month_end && is_at_month_end(calendar, day) {
        last_open(calendar, target)
    } else {
        adjusted_day(calendar, target, convention)
    }
}

// The day a number of years on.
fn years_on(
    calendar: &Calendar,
    day: Day,
    n: i32,
    convention: Convention,
    month_end: bool,
) -> Option<Day>
    ensures { result ≡ advanced.months_on (is_business_day calendar.now) convention month_end day (n *ℤ pos 12) }
{
    let _number = day.number();
    if n < -1000 || n > 1000 {
        return None;
    }
    months_on(calendar, day, n * 12, convention, month_end)
}

// Whether no business day of the month comes after the day, and the month has one.
fn is_at_month_end(calendar: &Calendar, day: Day) -> bool
    ensures { result ≡ ends.is_from day (ends.last_open (is_business_day calendar.now) day) }
{
    match last_open(calendar, day) {
        Some(last) => last <= day,
        None => false,
    }
}
