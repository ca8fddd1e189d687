// The business days next to a day, day by day, but for long closures, which are passed at once.
ghost use Rattle.std.specs.Prelude.{◌≡◌, pos, ◌+ℤ◌, ◌-ℤ◌};
ghost use Rattle.holiday_calendars.specs.Calendar.{is_business_day};
ghost use Rattle.day_number.specs.Day.{IsDayNumber};
ghost use Rattle.day_shift.specs.Business.{day_at, next, previous};

use day_number::{Day, add_days};
use holiday_calendars::Calendar;

// The day a number of days after a day, which is one of the range, where there is one.
pub(crate) fn shifted(day: Day, n: i32) -> Option<Day>
    ensures value { result ≡ day_at (day +ℤ n) }
    ensures range { IsDayNumber day }
{
    let _number = day.number();
    add_days(day, n).ok()
}

// Whether a day, which is one of the range, is a business day.
fn is_open(calendar: &Calendar, day: Day) -> bool
    ensures value { result ≡ is_business_day calendar.now day }
    ensures range { IsDayNumber day }
{
    let _number = day.number();
    calendar.is_business(day)
}

// The first business day at or after a day.
pub(crate) fn next_open(calendar: &Calendar, day: Day) -> Option<Day>
    ensures { result ≡ next (is_business_day calendar.now) day }
{
    let mut there = day;
    while !is_open(calendar, there) {
        there = shifted(calendar.closed_until(there), 1)?;
    }
    Some(there)
}

// The last business day at or before a day.
pub(crate) fn previous_open(calendar: &Calendar, day: Day) -> Option<Day>
    ensures { result ≡ previous (is_business_day calendar.now) day }
{
    let mut there = day;
    while !is_open(calendar, there) {
        there = shifted(calendar.closed_since(there), -1)?;
    }
    Some(there)
}

// The first business day after a day.
pub(crate) fn open_after(calendar: &Calendar, day: Day) -> Option<Day>
    ensures { result ≡ next (is_business_day calendar.now) (day +ℤ pos 1) }
{
    next_open(calendar, shifted(day, 1)?)
}

// The last business day before a day.
pub(crate) fn open_before(calendar: &Calendar, day: Day) -> Option<Day>
    ensures { result ≡ previous (is_business_day calendar.now) (day -ℤ pos 1) }
{
    previous_open(calendar, shifted(day, -1)?)
}
