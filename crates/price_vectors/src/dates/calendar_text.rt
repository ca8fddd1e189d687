// Calendars written in a row: N null, W weekends, T TARGET; a calendar of one's own as seven marks from Monday on, `x` a
// holiday and `-` none, then `/` and its days YYYYMMDD with spaces between; a joint one as `H:` (holidays) or `B:` (business
// days) and its parts with `+` between.
use crate::dates::fault::RowFault;
use day_number::{Day, DayList};
use holiday_calendars::{Base, BaseList, Calendar, JointRule, bespoke, joint};
use std::alloc::Global;

/// The calendar of a text.
pub(crate) fn calendar_of(alloc: Global, text: &str) -> Result<Calendar, RowFault> {
    let Some((rule, parts)) = text.split_once(':') else {
        return Ok(Calendar::one(base_of(alloc, text)?));
    };
    let rule = match rule {
        "H" => JointRule::Holidays,
        "B" => JointRule::BusinessDays,
        _ => return Err(RowFault::NotARow),
    };
    Ok(joint(rule, parts_of(alloc, parts)?)?)
}

fn parts_of(alloc: Global, text: &str) -> Result<BaseList, RowFault> {
    let mut parts = BaseList::new(alloc);
    if !text.is_empty() {
        for part in text.split('+') {
            parts.push(base_of(alloc, part)?)?;
        }
    }
    Ok(parts)
}

fn base_of(alloc: Global, text: &str) -> Result<Base, RowFault> {
    match text {
        "N" => Ok(Base::Null),
        "W" => Ok(Base::Weekends),
        "T" => Ok(Base::Target),
        own => {
            let (marks, text) = own.split_once('/').ok_or(RowFault::NotARow)?;
            let weekend = weekend_of(marks).ok_or(RowFault::NotARow)?;
            let mut days = DayList::new(alloc);
            add_days(&mut days, text)?;
            Ok(bespoke(alloc, weekend, days)?)
        }
    }
}

fn weekend_of(marks: &str) -> Option<[bool; 7]> {
    let mut weekend = [false; 7];
    let mut marks = marks.bytes();
    for at in 0..7 {
        weekend[at] = is_marked(marks.next()?)?;
    }
    match marks.next() {
        None => Some(weekend),
        Some(_) => None,
    }
}

fn is_marked(mark: u8) -> Option<bool> {
    match mark {
        b'x' => Some(true),
        b'-' => Some(false),
        _ => None,
    }
}

// Adds the days of a text.
fn add_days(days: &mut DayList, text: &str) -> Result<(), RowFault> {
    if !text.is_empty() {
        for word in text.split(' ') {
            days.push(short_day(word).ok_or(RowFault::NotARow)?)?;
        }
    }
    Ok(())
}

/// The day of a number with the digits YYYYMMDD.
pub(crate) fn short_day(text: &str) -> Option<Day> {
    let number: u32 = text.parse().ok()?;
    if number > 99_999_999 {
        return None;
    }
    let (month, day) = (number / 100 % 100, number % 100);
    Day::of((number / 10_000) as i32, month as u8, day as u8)
}
