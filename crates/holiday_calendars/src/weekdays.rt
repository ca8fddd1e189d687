// Days of the week.
ghost use Rattle.std.specs.Prelude.{◌≡◌, ◌<◌};
ghost use Rattle.jiff_core.specs.Calendar.{weekday_number};
ghost use Rattle.holiday_calendars.specs.Week as week;

use day_number::Day;

// Returns the day of the week, from Monday as 0.
pub(crate) fn weekday(day: Day) -> u8
    ensures value { result ≡ weekday_number day }
    ensures week { result < 7 }
{
    (day.number() + 3).rem_euclid(7) as u8
}

// Returns whether a day is from Monday to Friday.
pub(crate) fn is_weekday(day: Day) -> bool
    ensures { result ≡ week.is_weekday day }
{
    weekday(day) < 5
}
