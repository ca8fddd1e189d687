// Counts business days.
ghost use Rattle.std.specs.Prelude.{◌≡◌, pos, ◌+ℤ◌, ◌≤ℤ◌};
ghost use Rattle.day_number.specs.Day.{IsDayNumber};
ghost use Rattle.holiday_calendars.specs.Calendar.{is_business_day};
ghost use Rattle.holiday_calendars.specs.Counted.{business_days_from};

use crate::Calendar;
use day_number::{Day, add_days};

/// Returns how many business days there are from a day, counted, to a later or equal day, not counted. Visits each of these days
/// once.
pub fn business_days(calendar: &Calendar, from: Day, to: Day) -> i32
    requires { from ≤ℤ to }
    ensures value { result ≡ pos (business_days_from (is_business_day calendar.now) from to) }
    ensures high { result ≤ℤ pos 110_000 }
{
    let days = to.number() - from.number();
    let mut count = 0;
    for step in 0..days {
        if calendar.is_business(later(from, step)) {
            count += 1;
        }
    }
    count
}

// Returns the day a number of days later, which is in range.
fn later(day: Day, days: i32) -> Day
    requires { IsDayNumber (day +ℤ days) }
    ensures { result ≡ day +ℤ days }
{
    match add_days(day, days) {
        Ok(there) => there,
        Err(_) => day,
    }
}
