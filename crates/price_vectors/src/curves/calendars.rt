// The calendars that the tables name.
use day_number::{Day, DayList};
use holiday_calendars::{Calendar, bespoke};
use row_markets::calendar_of;
use std::alloc::Global;

/// N null, W weekends, T TARGET, and K with the Mondays outside January and February 2024 and the first of it as its
/// business days.
pub(crate) fn calendar_with_own(alloc: Global, name: &str) -> Option<Calendar> {
    match name {
        "K" => mondays(alloc),
        _ => calendar_of(name),
    }
}

// Closed on all days but Mondays, and on eight Mondays.
fn mondays(alloc: Global) -> Option<Calendar> {
    let weekend = [false, true, true, true, true, true, true];
    let dates = [
        (1, 8),
        (1, 15),
        (1, 22),
        (1, 29),
        (2, 5),
        (2, 12),
        (2, 19),
        (2, 26),
    ];
    let mut days = DayList::new(alloc);
    for (month, day) in dates {
        days.push(Day::of(2024, month, day)?).ok()?;
    }
    Some(Calendar::one(bespoke(alloc, weekend, days).ok()?))
}
