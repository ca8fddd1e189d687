// Long runs of holidays of a custom calendar, which are skipped and not visited day by day.
ghost use Rattle.std.specs.Prelude.{◌≡◌, true, false, slice_index_or, IfOk, IfSome, Contains, All, ℤ, pos, ◌+ℤ◌, ◌≤ℤ◌, ◌<ℤ◌};
ghost use Rattle.jiff_core.specs.Calendar.{weekday_number};
ghost use Rattle.holiday_calendars.specs.Closed.{closed_on};
ghost use Rattle.holiday_calendars.specs.Stretch.{IsClosure};

use crate::weekdays::weekday;
use day_number::{Day, add_days};
use std::alloc::{AllocError, Global};

/// Consecutive days, all of them holidays.
#[derive(Clone, Copy)]
pub(crate) struct Closure {
    pub(crate) first: Day,
    pub(crate) last: Day,
}

// Returns the closures of more than a week: consecutive listed days, between which only weekdays that are holidays lie.
pub(crate) fn closures_of(
    weekend: [bool; 7],
    days: &[Day],
    alloc: Global,
) -> Result<Vec<Closure>, AllocError>
    ensures { IfOk result (λ list. All (IsClosure (closed_on weekend days.now)) list.items) }
{
    let mut closures = Vec::new(alloc);
    if days.is_empty() {
        return Ok(closures);
    }
    let mut first = days[0];
    let mut last = first;
    for day in days {
        if !is_joined(last, *day) {
            if is_long(first, last) {
                closures.push(Closure { first, last })?;
            }
            first = *day;
        }
        last = weekend_end(weekend, *day);
    }
    if is_long(first, last) {
        closures.push(Closure { first, last })?;
    }
    Ok(closures)
}

// Returns whether a day is at most one day after another.
fn is_joined(last: Day, day: Day) -> bool
    ensures { (result ≡ true) → day ≤ℤ (last +ℤ pos 1) }
{
    day.number() - last.number() <= 1
}

// Returns whether there is more than a week from a day to another, both counted.
fn is_long(first: Day, last: Day) -> bool {
    last.number() - first.number() >= 7
}

// Returns the last of the days after a day, within range, up to which all weekdays are holidays.
fn weekend_end(weekend: [bool; 7], day: Day) -> Day
    ensures later { day ≤ℤ result }
    ensures closed { (x : ℤ) → day <ℤ x → x ≤ℤ result → slice_index_or weekend (weekday_number x) false ≡ true }
{
    let mut last = day;
    while let Ok(next) = add_days(last, 1) {
        if !weekend[usize::from(weekday(next))] {
            return last;
        }
        last = next;
    }
    last
}

// Returns the closure that a day is in, if there is one. The closures are in ascending order.
pub(crate) fn closure_around(closures: &[Closure], day: Day) -> Option<Closure>
    ensures { IfSome result (λ c. Contains closures.now c × (c.first ≤ℤ day) × (day ≤ℤ c.last)) }
{
    let begun = closures.partition_point(|closure| closure.first <= day);
    if begun == 0 {
        return None;
    }
    let closure = closures[begun - 1];
    if closure.first <= day && day <= closure.last {
        Some(closure)
    } else {
        None
    }
}
