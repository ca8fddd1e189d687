// Single calendars, and lists of them.
ghost use Rattle.std.specs.Prelude.{◌≡◌, IfOk};

use crate::weekdays::is_weekday;
use crate::{BespokeHolidays, target};
use day_number::Day;
use item_lists::Items;
use std::alloc::{AllocError, Global};

/// A single calendar.
#[derive(Drop)]
pub enum Base {
    /// Every day is a business day (QuantLib's NullCalendar).
    Null,
    /// Saturday and Sunday are holidays (QuantLib's WeekendsOnly).
    Weekends,
    /// TARGET's holidays since 2002, in every year: Saturday, Sunday, 1 January, Good Friday, Easter Monday, 1 May, 25
    /// and 26 December.
    Target,
    /// Holidays that `bespoke` was given (QuantLib's BespokeCalendar).
    Bespoke(BespokeHolidays),
}

impl Base {
    ghost use Rattle.std.specs.Prelude.{◌≡◌, IfOk, ◌≤ℤ◌};
    ghost use Rattle.holiday_calendars.specs.Base.{is_base_day};
    ghost use Rattle.holiday_calendars.specs.Stretch.{AreHolidaysAfter, AreHolidaysBefore};

    // Returns whether the day is a business day.
    pub(crate) fn is_business(&self, day: Day) -> bool
        ensures { result ≡ is_base_day self.now day }
    {
        match self {
            Base::Null => true,
            Base::Weekends => is_weekday(day),
            Base::Target => target::is_open(day),
            Base::Bespoke(holidays) => !holidays.is_holiday(day),
        }
    }

    // Returns the last day of the long closure of a custom calendar that a day is in, or the day itself.
    pub(crate) fn closed_until(&self, day: Day) -> Day
        ensures order { day ≤ℤ result }
        ensures holidays { AreHolidaysAfter (is_base_day self.now) day result }
    {
        match self {
            Base::Null | Base::Weekends | Base::Target => day,
            Base::Bespoke(holidays) => holidays.closed_until(day),
        }
    }

    // Returns the first day of the long closure of a custom calendar that a day is in, or the day itself.
    pub(crate) fn closed_since(&self, day: Day) -> Day
        ensures order { result ≤ℤ day }
        ensures holidays { AreHolidaysBefore (is_base_day self.now) day result }
    {
        match self {
            Base::Null | Base::Weekends | Base::Target => day,
            Base::Bespoke(holidays) => holidays.closed_since(day),
        }
    }

    /// Returns an equal calendar.
    ///
    /// # Errors
    ///
    /// `AllocError` where memory runs out.
    pub fn copy(&self, alloc: Global) -> Result<Base, AllocError>
        ensures { IfOk result (λ base. base ≡ self.now) }
    {
        Ok(match self {
            Base::Null => Base::Null,
            Base::Weekends => Base::Weekends,
            Base::Target => Base::Target,
            Base::Bespoke(holidays) => Base::Bespoke(holidays.copy(alloc)?),
        })
    }
}

/// Calendars in order. Clauses see the list of them.
pub type BaseList = Items<Base>;

// Returns an equal list.
pub(crate) fn copy_of(bases: &[Base], alloc: Global) -> Result<BaseList, AllocError>
    ensures { IfOk result (λ list. list ≡ bases.now) }
{
    let mut copies = BaseList::new(alloc);
    for base in bases {
        copies.push(base.copy(alloc)?)?;
    }
    Ok(copies)
}
