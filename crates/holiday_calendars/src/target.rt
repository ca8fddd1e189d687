// TARGET's holidays.
ghost use Rattle.std.specs.Prelude.{◌≡◌, pos};
ghost use Rattle.jiff_core.specs.Calendar.{IsBetween};
ghost use Rattle.holiday_calendars.specs.Target.{is_fixed_holiday, is_easter_holiday, is_target_holiday, is_target_day};

use crate::easter_sunday;
use crate::weekdays::is_weekday;
use day_number::Day;

// Returns whether a date is New Year's Day, Labour Day or one of the two days of Christmas.
fn is_fixed(month: u8, day: u8) -> bool
    ensures { result ≡ is_fixed_holiday month day }
{
    match month {
        1 | 5 => day == 1,
        12 => day == 25 || day == 26,
        _ => false,
    }
}

// Returns whether a day is Good Friday or Easter Monday.
fn is_beside_easter(year: i32, day: Day) -> bool
    requires { IsBetween (pos 1901) (pos 2199) year }
    ensures { result ≡ is_easter_holiday year day }
{
    match easter_sunday(year) {
        Some(sunday) => {
            let easter = sunday.number();
            day.number() == easter - 2 || day.number() == easter + 1
        }
        None => false,
    }
}

// Returns whether TARGET is closed on a day, weekends apart.
#[tactic(auto, unfolding(crate::specs::Target::is_target_holiday))]
fn is_holiday(day: Day) -> bool
    ensures { result ≡ is_target_holiday day }
{
    let (year, month, day_of_month) = day.parts();
    is_fixed(month, day_of_month) || is_beside_easter(year, day)
}

// Returns whether TARGET is open on a day.
pub(crate) fn is_open(day: Day) -> bool
    ensures { result ≡ is_target_day day }
{
    is_weekday(day) && !is_holiday(day)
}
