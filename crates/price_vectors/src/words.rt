// The words of a row, one after another. None where there is no further word, or it is none of its kind.
ghost use Rattle.std.specs.Prelude.{IfSome};
ghost use Rattle.flow_terms.specs.Fixings.{IsRate};

use day_number::{Convention, Day, Tenor, Unit, read_day, read_tenor};
use fixed_amount::Rate;
use row_markets::{counter_of, whole_rate};
use std::str::Split;
use year_parts::Counter;

/// Three words of a row.
pub(crate) type Three<'a> = (&'a str, &'a str, &'a str);

/// Three words.
pub(crate) fn next_three<'a>(words: &mut Split<'a, char>) -> Option<Three<'a>> {
    Some((words.next()?, words.next()?, words.next()?))
}

/// A whole number.
pub(crate) fn next_number(words: &mut Split<'_, char>) -> Option<i32> {
    words.next()?.parse().ok()
}

/// A whole number, and none where it is another word.
pub(crate) fn next_number_or(words: &mut Split<'_, char>, other: &str) -> Option<Option<i32>> {
    let word = words.next()?;
    if word == other {
        return Some(None);
    }
    Some(Some(word.parse().ok()?))
}

/// A day.
pub(crate) fn next_day(words: &mut Split<'_, char>) -> Option<Day> {
    read_day(words.next()?.as_bytes())
}

/// A day, and none where it is another word.
pub(crate) fn next_day_or(words: &mut Split<'_, char>, other: &str) -> Option<Option<Day>> {
    let word = words.next()?;
    if word == other {
        return Some(None);
    }
    Some(Some(read_day(word.as_bytes())?))
}

/// 0 or 1.
pub(crate) fn next_flag(words: &mut Split<'_, char>) -> Option<bool> {
    match words.next()? {
        "0" => Some(false),
        "1" => Some(true),
        _ => None,
    }
}

/// The letter of a unit.
pub(crate) fn next_unit(words: &mut Split<'_, char>) -> Option<Unit> {
    match words.next()? {
        "D" => Some(Unit::Days),
        "W" => Some(Unit::Weeks),
        "M" => Some(Unit::Months),
        "Y" => Some(Unit::Years),
        _ => None,
    }
}

/// A convention by its first letters.
pub(crate) fn next_convention(words: &mut Split<'_, char>) -> Option<Convention> {
    match words.next()? {
        "U" => Some(Convention::Unadjusted),
        "F" => Some(Convention::Following),
        "P" => Some(Convention::Preceding),
        "MF" => Some(Convention::ModifiedFollowing),
        "MP" => Some(Convention::ModifiedPreceding),
        "H" => Some(Convention::HalfMonthModifiedFollowing),
        "N" => Some(Convention::Nearest),
        _ => None,
    }
}

/// A tenor.
pub(crate) fn next_tenor(words: &mut Split<'_, char>) -> Option<Tenor> {
    read_tenor(words.next()?.as_bytes())
}

/// A counter.
pub(crate) fn next_counter(words: &mut Split<'_, char>) -> Option<Counter> {
    counter_of(words.next()?)
}

/// A rate in units of 10^-9.
pub(crate) fn next_rate(words: &mut Split<'_, char>) -> Option<Rate>
    ensures { IfSome result IsRate }
{
    whole_rate(words.next()?)
}
