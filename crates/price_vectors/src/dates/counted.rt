// Days that counters count, by QuantLib 1.29.
use crate::dates::calendar_text::calendar_of;
use crate::dates::fault::RowFault;
use crate::words::{next_day, next_number};
use day_counters::fraction;
use day_number::Day;
use holiday_calendars::{Base, Calendar};
use std::alloc::Global;
use std::str::Split;
use year_parts::Counter;

// The parts of a day of a year of 360, of 365 and of 366 days, and of one of 252 business days.
const PARTS_OF_360: i64 = 31_171;

const PARTS_OF_365: i64 = 30_744;

const PARTS_OF_366: i64 = 30_660;

const PARTS_OF_252: i64 = 44_530;

/// `from,to,days,leap,other,bond,european`: the days from one day to another: all of them, those in leap years, the
/// others, and those of 30/360 by Bond Basis and by the European rule.
pub(crate) fn count_agrees(row: &mut Split<'_, char>) -> Option<bool> {
    let (Some(from), Some(to), Some(days)) = (next_day(row), next_day(row), next_number(row)) else {
        return None;
    };
    let leap = parts(next_number(row)?, PARTS_OF_366);
    let other = parts(next_number(row)?, PARTS_OF_365);
    let bond = next_number(row)?;
    let european = next_number(row)?;
    if !(from <= to) {
        return None;
    }
    let cases = [
        (Counter::Act360, parts(days, PARTS_OF_360)),
        (Counter::Act365, parts(days, PARTS_OF_365)),
        (Counter::ActAct, leap.wrapping_add(other)),
        (Counter::Thirty360, parts(bond, PARTS_OF_360)),
        (Counter::ThirtyE360, parts(european, PARTS_OF_360)),
        (Counter::Bus252, parts(days, PARTS_OF_252)),
    ];
    let each = Calendar::one(Base::Null);
    let mut agrees = true;
    for (counter, parts) in cases {
        agrees &= has_parts(counter, &each, from, to, parts);
    }
    Some(agrees)
}

/// `calendar,from,to,count`: the business days from one day to another, over 252.
pub(crate) fn business_agrees(calendar: &Calendar, row: &mut Split<'_, char>) -> Option<bool> {
    let from = next_day(row)?;
    let to = next_day(row)?;
    let count = next_number(row)?;
    if !(from <= to) {
        return None;
    }
    Some(has_parts(
        Counter::Bus252,
        calendar,
        from,
        to,
        parts(count, PARTS_OF_252),
    ))
}

fn parts(days: i32, each: i64) -> i64 {
    i64::from(days).wrapping_mul(each)
}

// Whether the fraction from a day to one that is not before it has so many parts.
fn has_parts(counter: Counter, calendar: &Calendar, from: Day, to: Day, parts: i64) -> bool {
    from <= to && fraction(counter, calendar, from, to).0 == parts
}
