// Payment days and fixing days.
ghost use Rattle.std.specs.Prelude.{◌≡◌};
ghost use Rattle.holiday_calendars.specs.Calendar.{is_business_day};
ghost use Rattle.cash_flow_legs.specs.Days.{payment_day, fixing_day};

use day_number::{Convention, Day, Unit};
use day_shift::advance;
use flow_terms::IndexTerms;
use holiday_calendars::Calendar;

/// Returns the payment day of an amount that is due on a day, if it is in range: `lag` business days later, and without a lag the
/// next business day at or after it.
pub(crate) fn payment_day(cal: &Calendar, day: Day, lag: u8) -> Option<Day>
    ensures { result ≡ payment_day (is_business_day cal.now) lag day }
{
    let on = i32::from(lag);
    advance(cal, day, on, Unit::Days, Convention::Following, false).ok()
}

/// Returns the fixing day of the rate for a period that starts on a day, if it is in range: the index's fixing days before it, on
/// the index's calendar.
pub(crate) fn fixing_day(index: &IndexTerms, day: Day) -> Option<Day>
    ensures { result ≡ fixing_day index.now day }
{
    let back = -i32::from(index.fixing_days);
    advance(
        &index.cal,
        day,
        back,
        Unit::Days,
        Convention::Preceding,
        false,
    )
    .ok()
}
