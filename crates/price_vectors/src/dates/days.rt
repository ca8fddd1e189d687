// Days, their places and days moved by the calendar alone, by Python's datetime; tenors; Easter by Python's dateutil.
use crate::dates::fault::RowFault;
use crate::words::{next_day, next_day_or, next_number, next_number_or, next_unit};
use day_number::{
    Day, Tenor, Unit, add_days, add_months, month_end, print_day, read_day, read_tenor, weekday,
};
use holiday_calendars::easter_sunday;
use std::alloc::{AllocError, Global};
use std::str::Split;

/// `text,number`: what the text of a day has for a number, or `none`. Such a text is also printed.
pub(crate) fn day_agrees(alloc: Global, row: &mut Split<'_, char>) -> Result<bool, RowFault> {
    let text = row.next().ok_or(RowFault::NotARow)?;
    let number = next_number_or(row, "none").ok_or(RowFault::NotARow)?;
    match read_day(text.as_bytes()) {
        Some(day) => Ok(number == Some(day.number()) && is_printed(alloc, day, text)?),
        None => Ok(number == None),
    }
}

// Whether the day is printed as the text, and is the day of its own parts.
fn is_printed(alloc: Global, day: Day, text: &str) -> Result<bool, AllocError> {
    let mut out = Vec::new(alloc);
    print_day(alloc, day, &mut out)?;
    let (year, month, place) = day.parts();
    Ok(out.as_slice() == text.as_bytes() && Day::of(year, month, place) == Some(day))
}

/// `year,month,day,date`: the date of these parts, or `none`.
pub(crate) fn date_agrees(row: &mut Split<'_, char>) -> Option<bool> {
    let year = next_number(row)?;
    let month = u8::try_from(next_number(row)?).ok()?;
    let day = u8::try_from(next_number(row)?).ok()?;
    Some(Day::of(year, month, day) == next_day_or(row, "none")?)
}

/// `day,weekday,month end`: the day's place in its week, from 1 for Monday, and the last day of its month.
pub(crate) fn place_agrees(row: &mut Split<'_, char>) -> Option<bool> {
    let day = next_day(row)?;
    let place = next_number(row)?;
    let end = next_day(row)?;
    Some(i32::from(weekday(day)) == place && month_end(day) == end)
}

/// `day,n,unit,result`: the day n days or months later, or `DateRange`.
pub(crate) fn later_agrees(row: &mut Split<'_, char>) -> Option<bool> {
    let day = next_day(row)?;
    let n = next_number(row)?;
    let found = match next_unit(row)? {
        Unit::Days => add_days(day, n),
        Unit::Months => add_months(day, n),
        Unit::Weeks | Unit::Years => return None,
    };
    Some(found.ok() == next_day_or(row, "DateRange")?)
}

/// `text,count,unit`: what the text of a tenor counts; or `text,none`.
pub(crate) fn tenor_agrees(row: &mut Split<'_, char>) -> Option<bool> {
    let found = read_tenor(row.next()?.as_bytes());
    let Some(count) = next_number_or(row, "none")? else {
        return Some(found.is_none());
    };
    let unit = next_unit(row)?;
    Some(found == Some(Tenor { count, unit }))
}

/// `year,day`: Easter Sunday of a year, or `none`.
pub(crate) fn easter_agrees(row: &mut Split<'_, char>) -> Option<bool> {
    let year = next_number(row)?;
    Some(easter_sunday(year) == next_day_or(row, "none")?)
}
