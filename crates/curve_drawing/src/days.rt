// The days at which a curve is drawn by its rates.
ghost use Rattle.std.specs.Prelude.{◌≡◌, ◌≤◌, ◌++◌, [], ◌∷◌, Some, IfOk};
ghost use Rattle.curve_drawing.specs.Days.{before, days_of, month_after, next_day};

use day_number::{Convention, Day, Unit};
use day_shift::advance;
use holiday_calendars::{Base, Calendar};
use std::alloc::{AllocError, Global};

// How many of these days there are at most: more than three hundred years of months.
pub(crate) const MOST_MONTHS: usize = 4_000;

// The days every so many months after a day, before a last one, and the last.
pub(crate) fn days_of(
    alloc: Global,
    start: Day,
    last: Day,
    every: usize,
) -> Result<Vec<Day>, AllocError>
    requires { every ≤ 12 }
    ensures { IfOk result (λ days. days.items ≡ days_of start last every) }
{
    let mut days = Vec::new(alloc);
    let mut months = every;
    let mut more = MOST_MONTHS;
    while more > 0 {
        match next_day(start, last, months) {
            None => return with_last(days, last),
            Some(day) => days.push(day)?,
        }
        months += every;
        more -= 1;
    }
    with_last(days, last)
}

// Days, and the last behind them.
fn with_last(days: Vec<Day>, last: Day) -> Result<Vec<Day>, AllocError>
    ensures { IfOk result (λ all. all.items ≡ days.items ++ last ∷ []) }
{
    let mut all = days;
    all.push(last)?;
    Ok(all)
}

// The day so many months after a day, if it is before the last.
fn next_day(start: Day, last: Day, months: usize) -> Option<Day>
    requires { months ≤ 100_000 }
    ensures { result ≡ next_day start last months }
{
    match month_after(start, months) {
        None => None,
        Some(day) => before(last, day),
    }
}

// A day, if it is before the last.
fn before(last: Day, day: Day) -> Option<Day>
    ensures { result ≡ before last (Some day) }
{
    if day < last { Some(day) } else { None }
}

// The day so many months after a day.
fn month_after(day: Day, months: usize) -> Option<Day>
    requires { months ≤ 100_000 }
    ensures { result ≡ month_after day months }
{
    match advance(
        &Calendar::one(Base::Null),
        day,
        months as i32,
        Unit::Months,
        Convention::Unadjusted,
        false,
    ) {
        Ok(found) => Some(found),
        Err(_) => None,
    }
}
