// Business days counted.
ghost use Rattle.std.specs.Prelude.{◌≡◌, List, length, ℤ, pos, ◌≤ℤ◌};
ghost use Rattle.holiday_calendars.specs.Calendar.{is_business_day};
ghost use Rattle.holiday_calendars.specs.Counted.{AreBusinessDays, business_days_from};

use day_number::Day;
use holiday_calendars::{Calendar, business_days};

/// How many business days lie from a day on, which counts, to a later or equal day, which does not (QuantLib's
/// Calendar::businessDaysBetween).
pub fn business_days_between(calendar: &Calendar, from: Day, to: Day) -> i32
    requires { from ≤ℤ to }
    ensures days { (days : List ℤ) × AreBusinessDays (is_business_day calendar.now) from to days
        × (result ≡ pos (length days)) }
    ensures value { result ≡ pos (business_days_from (is_business_day calendar.now) from to) }
{
    business_days(calendar, from, to)
}
