// Lines `YYYY,MMDD MMDD ..`: a year, and its days from Monday to Friday that are holidays of QuantLib 1.29's TARGET. It
// has one holiday that is not in every year, 2001-12-31.
use crate::dates::fault::RowFault;
use crate::words::next_number;
use anyhow::{Result, bail};
use day_number::{Day, add_days};
use holiday_calendars::{Base, Calendar};
use std::io;

/// How many days agree and how many differ.
#[derive(Drop)]
struct Tally {
    agree: u32,
    differ: u32,
}

/// Prints each day that differs, and how many agree and differ.
pub(crate) fn compare(rt: &impl Print, text: &str) -> Result<()> {
    let mut tally = Tally {
        agree: 0,
        differ: 0,
    };
    for line in text.lines() {
        let Some((first, closed)) = year_of(line) else {
            bail!("target: {}: {line}", RowFault::NotARow);
        };
        compare_year(rt, first, closed, &mut tally)?;
    }
    println!(rt; "target: {} agree, {} differ", tally.agree, tally.differ)?;
    Ok(())
}

// The first day of a line's year, and the holidays' texts.
fn year_of(line: &str) -> Option<(Day, &str)> {
    let mut row = line.split(',');
    let first = Day::of(next_number(&mut row)?, 1, 1)?;
    let closed = row.next()?;
    for text in closed.split(' ') {
        if text.len() != 4 || text.parse::<u16>().is_err() {
            return None;
        }
    }
    match row.next() {
        None => Some((first, closed)),
        Some(_) => None,
    }
}

// Compares the days of a year from the first on.
fn compare_year(rt: &impl Print, first: Day, closed: &str, tally: &mut Tally) -> io::Result<()> {
    for step in 0..366 {
        if let Ok(day) = add_days(first, step) {
            if day.parts().0 == first.parts().0 {
                compare_day(rt, day, closed, tally)?;
            }
        }
    }
    Ok(())
}

fn compare_day(rt: &impl Print, day: Day, closed: &str, tally: &mut Tally) -> io::Result<()> {
    let (year, month, place) = day.parts();
    if is_open(day) == (is_weekday(day) && !is_listed(closed, month, place)) {
        tally.agree = tally.agree.saturating_add(1);
    } else {
        tally.differ = tally.differ.saturating_add(1);
        println!(rt; "target: {year}-{month:02}-{place:02}")?;
    }
    Ok(())
}

fn is_open(day: Day) -> bool {
    Calendar::one(Base::Target).is_business(day)
}

fn is_weekday(day: Day) -> bool {
    Calendar::one(Base::Weekends).is_business(day)
}

// Whether one of the texts MMDD is the month's day.
fn is_listed(closed: &str, month: u8, day: u8) -> bool {
    let code = u32::from(month) * 100 + u32::from(day);
    closed.split(' ').any(|text| text.parse() == Ok(code))
}
