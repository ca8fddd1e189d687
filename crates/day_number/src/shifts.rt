// Days before and after a day, and the place of a day in its week and its month.
ghost use Rattle.std.specs.Prelude.{◌≡◌, ◌↔◌, ◌≤◌, ◌+◌, ◌-◌, min, pos, ◌+ℤ◌, ◌*ℤ◌, IsOk, IfOk};
ghost use Rattle.std.specs.Int.{IsInRange};
ghost use Rattle.jiff_core.specs.Calendar.{IsBetween, IsWithin, days_in_month, weekday_number};
ghost use Rattle.day_number.specs.Day.{IsDayNumber, civil_number, date_of};
ghost use Rattle.day_number.specs.Shift.{date_months_later, months_later, last_of_month};

use crate::Day;
use jiff_core::civil;
use thiserror::Error;

/// The day asked for lies outside 1901-01-01 to 2199-12-31.
#[derive(Clone, Copy, Debug, PartialEq, Eq, Error)]
#[error("no day from 1901-01-01 to 2199-12-31")]
pub struct DateRange;

/// The day `n` days after a day, or before it where `n` is negative. An error exactly where that is no day of the
/// range.
pub fn add_days(day: Day, n: i32) -> Result<Day, DateRange>
    ensures found { IsOk result ↔ IsDayNumber (day +ℤ n) }
    ensures value { IfOk result (λ d. d ≡ day +ℤ n) }
{
    let number = i64::from(day.number()) + i64::from(n);
    if number < -25_202 || number > 84_005 {
        return Err(DateRange);
    }
    Ok(Day {
        count: number as i32,
    })
}

/// The day `n` months after a day, or before it where `n` is negative: the same day of that month, or the month's last
/// day where it is shorter. An error exactly where that is no day of the range.
pub fn add_months(day: Day, n: i32) -> Result<Day, DateRange>
    ensures found { IsOk result
        ↔ IsBetween (pos 1901) (pos 2199) (date_months_later (date_of day) n).year }
    ensures value { IfOk result (λ d. d ≡ months_later day n) }
{
    let (year, month, date) = day.parts();
    let months = months_after(year, month, n);
    clipped(months.div_euclid(12), months.rem_euclid(12) as u8 + 1, date)
}

// The month `n` months after one, counted from January of the year 0.
fn months_after(year: i32, month: u8, n: i32) -> i64
    requires year { IsBetween (pos 1901) (pos 2199) year }
    requires month { IsInRange 1 12 month }
    ensures value { result ≡ year *ℤ pos 12 +ℤ pos (month - 1) +ℤ n }
    ensures range { IsWithin 3_000_000_000 result }
{
    i64::from(year) * 12 + i64::from(month - 1) + i64::from(n)
}

// The day of a month, or the month's last one where that is earlier.
fn clipped(year: i64, month: u8, date: u8) -> Result<Day, DateRange>
    requires month { IsInRange 1 12 month }
    requires date { 1 ≤ date }
    ensures found { IsOk result ↔ IsBetween (pos 1901) (pos 2199) year }
    ensures value { IfOk result (λ d. d ≡ civil_number year month (min date (days_in_month year month))) }
{
    if year < 1901 || year > 2199 {
        return Err(DateRange);
    }
    let last = civil::days_in_month(year as i16, month);
    Day::of(year as i32, month, date.min(last)).ok_or(DateRange)
}

/// The last day of a day's month.
pub fn month_end(day: Day) -> Day
    ensures { result ≡ last_of_month day }
{
    let (year, month, date) = day.parts();
    let last = civil::days_in_month(year as i16, month);
    Day {
        count: day.number() + i32::from(last - date),
    }
}

/// The day of the week, from 1 for Monday to 7 for Sunday (ISO 8601).
pub fn weekday(day: Day) -> u8
    ensures { result ≡ weekday_number day + 1 }
{
    (day.number() + 3).rem_euclid(7) as u8 + 1
}
