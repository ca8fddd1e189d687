// A civil day. A clause sees it as its number.
use jiff::civil::Date;
use std::marker::Model;

/// A civil day from 1901-01-01 to 2199-12-31, in the order of time. Its number counts days from 1970-01-01, which is 0;
/// the first day is -25,202 and the last 84,005.
#[derive(Clone, Copy, Debug, PartialEq, Eq, PartialOrd, Ord)]
pub struct Day {
    pub(crate) count: i32,
}

impl Model for Day {
    ghost use Rattle.std.specs.Prelude.{ℤ};
    ghost use Rattle.day_number.specs.Day.{IsDayNumber};

    ghost Value = { ℤ };

    ghost view = { λ d. d.count };

    ghost invariant = { λ d. IsDayNumber d.count };

    ghost inverse = { λ number. record { count = number } };
}

impl Day {
    ghost use Rattle.std.specs.Prelude.{◌≡◌, ◌↔◌, IsSome, IfSome};
    ghost use Rattle.day_number.specs.Day.{IsDayNumber, IsCivil, civil_number, date_of};

    /// The day of a date of the Gregorian calendar, and none where the calendar or the range lacks the date.
    pub fn of(year: i32, month: u8, day: u8) -> Option<Day>
        ensures found { IsSome result ↔ IsCivil year month day }
        ensures value { IfSome result (λ d. d ≡ civil_number year month day) }
    {
        if year < 1901 || year > 2199 || month > 12 || day > 31 {
            return None;
        }
        match Date::new(year as i16, month as i8, day as i8) {
            Ok(date) => Some(Day {
                count: date.to_plain().to_unix_epoch_day(),
            }),
            Err(_) => None,
        }
    }

    /// The day's number: how many days lie from 1970-01-01 to it, negative before.
    pub fn number(self) -> i32
        ensures value { result ≡ self }
        ensures range { IsDayNumber result }
    {
        self.count
    }

    /// The day's year, month and day of the month.
    pub fn parts(self) -> (i32, u8, u8)
        ensures civil { IsCivil result.0 result.1 result.2 }
        ensures number { civil_number result.0 result.1 result.2 ≡ self }
        ensures date { let date = date_of self in (result.0 ≡ date.year)
            × (result.1 ≡ date.month) × (result.2 ≡ date.day) }
    {
        let date = jiff_core::civil::Date::from_days_since_min((self.count + 4_371_587) as u32);
        (i32::from(date.year), date.month, date.day)
    }
}
