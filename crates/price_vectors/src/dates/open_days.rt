// Business days of a calendar, and how many there are.
use crate::dates::calendar_text::calendar_of;
use crate::dates::fault::RowFault;
use crate::words::{next_day, next_number};
use day_number::Day;
use day_shift::business_days_between;
use holiday_calendars::{BespokeFault, Calendar, JointFault};
use std::alloc::{AllocError, Global};
use std::str::Split;

/// `calendar,day,answer`: whether the day is `open` or `closed`, or the fault of the calendar.
pub(crate) fn calendar_agrees(alloc: Global, row: &mut Split<'_, char>) -> Result<bool, RowFault> {
    let (Some(text), Some(day), Some(answer)) = (row.next(), next_day(row), row.next()) else {
        return Err(RowFault::NotARow);
    };
    let found = match calendar_of(alloc, text) {
        Ok(calendar) => state(alloc, &calendar, day)?,
        Err(RowFault::Bespoke(BespokeFault::AllWeekend)) => "AllWeekend",
        Err(RowFault::Joint(JointFault::NoParts)) => "NoParts",
        Err(RowFault::Joint(JointFault::TooMany)) => "TooMany",
        Err(fault) => return Err(fault),
    };
    Ok(found == answer)
}

// What the day is in the calendar and in a copy of it.
fn state(alloc: Global, calendar: &Calendar, day: Day) -> Result<&'static str, AllocError> {
    let copy = calendar.copy(alloc)?;
    Ok(match (calendar.is_business(day), copy.is_business(day)) {
        (true, true) => "open",
        (false, false) => "closed",
        (true, false) => "closed in the copy",
        (false, true) => "open in the copy",
    })
}

/// `calendar,from,to,count`: how many business days lie from a day on to another.
pub(crate) fn between_agrees(calendar: &Calendar, row: &mut Split<'_, char>) -> Option<bool> {
    let from = next_day(row)?;
    let to = next_day(row)?;
    let count = next_number(row)?;
    if from <= to {
        return Some(business_days_between(calendar, from, to) == count);
    }
    None
}
