// Days adjusted and advanced, by QuantLib 1.29 and by a model in Python.
use crate::words::{
    next_convention, next_day, next_day_or, next_flag, next_number, next_number_or, next_unit,
};
use day_number::{Convention, Day};
use day_shift::{adjust, advance};
use holiday_calendars::Calendar;
use std::str::Split;

/// `calendar,day,F,P,MF,MP,H,N`: how many days from a day its adjusted days lie, or `DateRange`.
pub(crate) fn adjusted_agrees(calendar: &Calendar, row: &mut Split<'_, char>) -> Option<bool> {
    let day = next_day(row)?;
    let conventions = [
        Convention::Following,
        Convention::Preceding,
        Convention::ModifiedFollowing,
        Convention::ModifiedPreceding,
        Convention::HalfMonthModifiedFollowing,
        Convention::Nearest,
    ];
    let mut agrees = true;
    for convention in conventions {
        agrees &= days_to(calendar, day, convention) == next_number_or(row, "DateRange")?;
    }
    Some(agrees)
}

// How many days from a day its adjusted day lies, where there is one.
fn days_to(calendar: &Calendar, day: Day, convention: Convention) -> Option<i32> {
    let found = adjust(calendar, day, convention).ok()?;
    Some(found.number() - day.number())
}

/// `calendar,day,n,unit,convention,month end,result`: the day that n units lead to, or `DateRange`.
pub(crate) fn advanced_agrees(calendar: &Calendar, row: &mut Split<'_, char>) -> Option<bool> {
    let (Some(day), Some(n), Some(unit), Some(convention), Some(month_end), Some(answer)) = (
        next_day(row),
        next_number(row),
        next_unit(row),
        next_convention(row),
        next_flag(row),
        next_day_or(row, "DateRange"),
    ) else {
        return None;
    };
    Some(advance(calendar, day, n, unit, convention, month_end).ok() == answer)
}
