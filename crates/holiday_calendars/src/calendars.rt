// Calendars.
use crate::{Base, JointParts};
use day_number::Day;
use std::alloc::{AllocError, Global};

/// A calendar: a set of business days.
pub enum Calendar {
    /// A single calendar.
    One(Base),
    /// A joint calendar, which `joint` makes.
    Joint(JointParts),
}

// Each exit of an owner of a calendar calls this once, instead of dropping each field.
impl Drop for Calendar {
    fn drop(self) {
        match self {
            Calendar::One(_) => {}
            Calendar::Joint(_) => {}
        }
    }
}

impl Calendar {
    ghost use Rattle.std.specs.Prelude.{◌≡◌, IfOk, ◌≤ℤ◌};
    ghost use Rattle.holiday_calendars.specs.Calendar.{is_business_day};
    ghost use Rattle.holiday_calendars.specs.Stretch.{AreHolidaysAfter, AreHolidaysBefore};

    /// Returns the calendar of one part.
    pub fn one(base: Base) -> Calendar
        ensures { result ≡ Calendar.One base }
    {
        Calendar::One(base)
    }

    /// Returns whether the day is a business day.
    #[tactic(auto, unfolding(crate::specs::Calendar::is_business_day))]
    pub fn is_business(&self, day: Day) -> bool
        ensures { result ≡ is_business_day self.now day }
    {
        match self {
            Calendar::One(base) => base.is_business(day),
            Calendar::Joint(joined) => joined.is_business(day),
        }
    }

    /// Returns the last day of the closure that a day is in, or the day itself. A closure is a run of more than a week of listed days
    /// and weekdays that are holidays. So a search skips the days of a closure.
    #[tactic(auto, unfolding(crate::specs::Calendar::is_business_day))]
    pub fn closed_until(&self, day: Day) -> Day
        ensures order { day ≤ℤ result }
        ensures holidays { AreHolidaysAfter (is_business_day self.now) day result }
    {
        match self {
            Calendar::One(base) => base.closed_until(day),
            Calendar::Joint(joined) => joined.closed_until(day),
        }
    }

    /// Returns the first day of the closure that a day is in, or the day itself.
    #[tactic(auto, unfolding(crate::specs::Calendar::is_business_day))]
    pub fn closed_since(&self, day: Day) -> Day
        ensures order { result ≤ℤ day }
        ensures holidays { AreHolidaysBefore (is_business_day self.now) day result }
    {
        match self {
            Calendar::One(base) => base.closed_since(day),
            Calendar::Joint(joined) => joined.closed_since(day),
        }
    }

    /// Returns an equal calendar.
    ///
    /// # Errors
    ///
    /// `AllocError` where memory runs out.
    pub fn copy(&self, alloc: Global) -> Result<Calendar, AllocError>
        ensures { IfOk result (λ calendar. calendar ≡ self.now) }
    {
        Ok(match self {
            Calendar::One(base) => Calendar::One(base.copy(alloc)?),
            Calendar::Joint(joined) => Calendar::Joint(joined.copy(alloc)?),
        })
    }
}
