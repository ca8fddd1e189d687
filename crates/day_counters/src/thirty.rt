// Days between two dates in months of 30 days and years of 360.
ghost use Rattle.std.specs.Prelude.{◌≡◌, pos, ◌≤ℤ◌, ◌+ℤ◌, ◌*ℤ◌};
ghost use Rattle.jiff_core.specs.Calendar.{IsWithin};
ghost use Rattle.day_number.specs.Day.{date_of};
ghost use Rattle.day_counters.specs.CivilDate.{at_least_zero, bond_basis_days as bond_basis_count, bond_day as last_bond_day, european_days as european_count};

use day_number::Day;

// The days by the rule of Bond Basis, taken as 0 where they are negative.
pub(crate) fn bond_basis_days(from: Day, to: Day) -> i32
    ensures value { result ≡ pos (at_least_zero (bond_basis_count (date_of from) (date_of to))) }
    ensures high { result ≤ℤ pos 110_000 }
{
    let (year, month, day) = from.parts();
    let (last_year, last_month, last_day) = to.parts();
    let day = day.min(30);
    let months = i32::from(last_month) - i32::from(month);
    let days = i32::from(bond_day(day, last_day)) - i32::from(day);
    whole_days(last_year - year, months, days)
}

// The last date's day where the first one's is that day.
fn bond_day(first: u8, last: u8) -> u8
    ensures { result ≡ last_bond_day first last }
{
    if first == 30 { last.min(30) } else { last }
}

// The days by the European rule, taken as 0 where they are negative.
pub(crate) fn european_days(from: Day, to: Day) -> i32
    ensures value { result ≡ pos (at_least_zero (european_count (date_of from) (date_of to))) }
    ensures high { result ≤ℤ pos 110_000 }
{
    let (year, month, day) = from.parts();
    let (last_year, last_month, last_day) = to.parts();
    let months = i32::from(last_month) - i32::from(month);
    let days = i32::from(last_day.min(30)) - i32::from(day.min(30));
    whole_days(last_year - year, months, days)
}

// The days of years of 360 and months of 30, and of days, taken as 0 where they are negative.
fn whole_days(years: i32, months: i32, days: i32) -> i32
    requires years { IsWithin 298 years }
    requires months { IsWithin 11 months }
    requires days { IsWithin 30 days }
    ensures value { result ≡ pos (at_least_zero (years *ℤ pos 360 +ℤ months *ℤ pos 30 +ℤ days)) }
    ensures high { result ≤ℤ pos 110_000 }
{
    (years * 360 + months * 30 + days).max(0)
}
