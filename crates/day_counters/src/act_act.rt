// Actual/Actual by whole years.
ghost use Rattle.std.specs.Prelude.{◌≡◌, pos, neg_ℤ, ◌≤ℤ◌, ◌+ℤ◌, unsigned_abs};
ghost use Rattle.jiff_core.specs.Calendar.{IsBetween};
ghost use Rattle.day_number.specs.Day.{IsDayNumber, civil_number};
ghost use Rattle.day_counters.specs.Day.{basis_of_year, act_act};

use day_number::Day;
use jiff_core::civil::{Date, is_leap_year};
use year_parts::{Basis, PARTS_IN_YEAR};

// The parts of the days from 1901-01-01 up to a day, which is not counted itself: those of whole years, which have the
// same parts in a leap year as in another, and those of the days since 1 January.
pub(crate) fn parts_before(day: Day) -> i64
    ensures value { result ≡ pos (act_act (neg_ℤ (pos 25_202)) (unsigned_abs (day +ℤ pos 25_202))) }
    ensures range { IsDayNumber day }
{
    let (year, _, _) = day.parts();
    let days = day.number() - new_year(year);
    i64::from(year - 1901) * PARTS_IN_YEAR + i64::from(days) * basis_of(year).parts_in_day()
}

// The number of 1 January.
fn new_year(year: i32) -> i32
    requires { IsBetween (pos 1901) (pos 2199) year }
    ensures { result ≡ civil_number year 1 1 }
{
    Date::constrain(year as i16, 1, 1).to_unix_epoch_day()
}

// The length of the year over which its days count.
fn basis_of(year: i32) -> Basis
    requires { IsBetween (pos 1901) (pos 2199) year }
    ensures { result ≡ basis_of_year year }
{
    if is_leap_year(year as i16) {
        Basis::D366
    } else {
        Basis::D365
    }
}
