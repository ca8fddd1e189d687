// Easter Sunday of the Gregorian calendar.
ghost use Rattle.std.specs.Prelude.{◌≡◌, ◌↔◌, ◌<◌, pos, IsSome, IfSome};
ghost use Rattle.std.specs.Int.{IsInRange};
ghost use Rattle.jiff_core.specs.Calendar.{IsBetween, weekday_number};
ghost use Rattle.holiday_calendars.specs.Easter.{moon_days, sunday_days, easter_place, easter_day};

use day_number::Day;

// Returns the day of the full moon, from 21 March.
#[tactic(auto, unfolding(crate::specs::Easter::moon_days))]
fn moon(year: u32) -> u32
    requires { year < 10_000 }
    ensures value { result ≡ moon_days year }
    ensures small { result < 30 }
{
    let century = year / 100;
    let drift = (century - (century + 8) / 25 + 1) / 3;
    (19 * (year % 19) + century - century / 4 - drift + 15) % 30
}

// Returns the days from the day after the full moon to a Sunday.
fn sunday(year: u32) -> u32
    requires { year < 10_000 }
    ensures value { result ≡ sunday_days year }
    ensures small { result < 7 }
{
    let rest = year % 100;
    (32 + 2 * (year / 100 % 4) + 2 * (rest / 4) - moon(year) - rest % 4) % 7
}

// Returns the place of Easter Sunday if each month has 31 places, so that 93 is that of 1 March.
fn place(year: u32) -> u32
    requires { year < 10_000 }
    ensures value { result ≡ easter_place year }
    ensures months { IsInRange 114 148 result }
{
    let moon = moon(year);
    let sunday = sunday(year);
    let late = (year % 19 + 11 * moon + 22 * sunday) / 451;
    moon + sunday - 7 * late + 114
}

/// Returns Easter Sunday of a year from 1901 to 2199 of the Gregorian calendar, by the rule in whole numbers without exceptions that
/// Nature printed in 1876.
pub fn easter_sunday(year: i32) -> Option<Day>
    ensures found { IsSome result ↔ IsBetween (pos 1901) (pos 2199) year }
    ensures value { IfSome result (λ day. day ≡ easter_day year) }
    ensures sunday { IfSome result (λ day. weekday_number day ≡ 6) }
{
    if year < 1901 || year > 2199 {
        return None;
    }
    let place = place(year as u32);
    Day::of(year, (place / 31) as u8, (place % 31 + 1) as u8)
}
