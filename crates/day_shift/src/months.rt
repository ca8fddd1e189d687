// The months of days.
ghost use Rattle.std.specs.Prelude.{◌≡◌};
ghost use Rattle.holiday_calendars.specs.Calendar.{is_business_day};
ghost use Rattle.day_shift.specs.Month as month;
ghost use Rattle.day_shift.specs.MonthEnd as ends;

use crate::searches::previous_open;
use day_number::{Day, add_months, month_end};
use holiday_calendars::Calendar;

// Whether two days lie in one month of one year.
pub(crate) fn is_same_month(day: Day, other: Day) -> bool
    ensures { result ≡ month.is_same_month day other }
{
    month_end(day) == month_end(other)
}

// Whether the middle of the month lies between two days.
pub(crate) fn is_across_middle(day: Day, other: Day) -> bool
    ensures { result ≡ month.is_across_middle day other }
{
    day.parts().2 <= 15 && other.parts().2 > 15
}

// The day a number of months after a day, where there is one.
pub(crate) fn month_at(day: Day, n: i32) -> Option<Day>
    ensures { result ≡ month.month_at day n }
{
    add_months(day, n).ok()
}

// The last business day of a day's month, where it has one.
pub(crate) fn last_open(calendar: &Calendar, day: Day) -> Option<Day>
    ensures { result ≡ ends.last_open (is_business_day calendar.now) day }
{
    let last = previous_open(calendar, month_end(day))?;
    if is_same_month(day, last) {
        Some(last)
    } else {
        None
    }
}
