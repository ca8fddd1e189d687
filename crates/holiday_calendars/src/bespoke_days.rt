// A custom calendar: weekdays and listed days that are holidays.
ghost use Rattle.std.specs.Prelude.{◌≡◌, ◌↔◌, true, IfOk};
ghost use Rattle.std.specs.List.{list_all, list_any};
ghost use Rattle.std.specs.List.Sorted.{IsSorted};
ghost use Rattle.std.specs.Ordering.{int_cmp, int_eq};
ghost use Rattle.holiday_calendars.specs.Closed.{closed_on};

use crate::Base;
use crate::closures::{Closure, closure_around, closures_of};
use crate::weekdays::weekday;
use day_number::{Day, DayList};
use std::alloc::{AllocError, AllocFailed, Global};
use std::marker::Model;
use thiserror::Error;

/// Why there is no such calendar.
#[derive(Clone, Copy, Debug, PartialEq, Eq, Error)]
pub enum BespokeFault {
    /// All seven weekdays are holidays, so that no day would be a business day.
    #[error("every weekday is a holiday")]
    AllWeekend,
    /// Memory ran out.
    #[error("out of memory")]
    NoMemory,
}

impl From<AllocError> for BespokeFault {
    ghost use Rattle.std.specs.Prelude.{◌≡◌};
    ghost use Rattle.holiday_calendars.specs.declared.bespoke_days.BespokeFault.TheVariants.{NoMemory};

    ghost from_gives = { λ _ e. e ≡ NoMemory };

    fn from(_: AllocError) -> BespokeFault {
        BespokeFault::NoMemory
    }
}

/// The holidays of a custom calendar: some weekdays, but not all, and a set of days. Clauses see the weekdays from Monday on and the
/// set.
pub struct BespokeHolidays {
    weekend: [bool; 7],
    // In ascending order.
    days: Vec<Day>,
    // The long ones, in ascending order.
    closures: Vec<Closure>,
}

// Each exit of an owner calls this once, instead of dropping each field.
impl Drop for BespokeHolidays {
    fn drop(self) {
        let BespokeHolidays {
            weekend: _,
            days: _,
            closures: _,
        } = self;
    }
}

impl Model for BespokeHolidays {
    ghost use Rattle.std.specs.Prelude.{◌≡◌, false, All};
    ghost use Rattle.std.specs.List.{list_all};
    ghost use Rattle.std.specs.List.Sorted.{IsSorted};
    ghost use Rattle.std.specs.Ordering.{int_cmp};
    ghost use Rattle.holiday_calendars.specs.Closed.{Closed, closed_on};
    ghost use Rattle.holiday_calendars.specs.Stretch.{IsClosure};

    ghost Value = { Closed };

    ghost view = { λ h. closed_on h.weekend h.days.items };

    ghost invariant = { λ h. IsSorted int_cmp h.days.items × (list_all (λ named. named) h.weekend ≡ false)
        × All (IsClosure (closed_on h.weekend h.days.items)) h.closures.items };
}

impl BespokeHolidays {
    ghost use Rattle.std.specs.Prelude.{◌≡◌, IfOk, not, ◌≤ℤ◌};
    ghost use Rattle.holiday_calendars.specs.Closed.{is_closed};
    ghost use Rattle.holiday_calendars.specs.Stretch.{AreHolidaysAfter, AreHolidaysBefore};

    // Returns whether a day is a holiday.
    pub(crate) fn is_holiday(&self, day: Day) -> bool
        ensures { result ≡ is_closed self.now day }
    {
        self.weekend[usize::from(weekday(day))] || is_listed(&self.days, day)
    }

    // Returns the last day of the long closure that a day is in, or the day itself.
    pub(crate) fn closed_until(&self, day: Day) -> Day
        ensures order { day ≤ℤ result }
        ensures holidays { AreHolidaysAfter (λ x. not (is_closed self.now x)) day result }
    {
        match closure_around(&self.closures, day) {
            Some(closure) => closure.last,
            None => day,
        }
    }

    // Returns the first day of the long closure that a day is in, or the day itself.
    pub(crate) fn closed_since(&self, day: Day) -> Day
        ensures order { result ≤ℤ day }
        ensures holidays { AreHolidaysBefore (λ x. not (is_closed self.now x)) day result }
    {
        match closure_around(&self.closures, day) {
            Some(closure) => closure.first,
            None => day,
        }
    }

    // Returns equal holidays.
    pub(crate) fn copy(&self, alloc: Global) -> Result<BespokeHolidays, AllocError>
        ensures { IfOk result (λ holidays. holidays ≡ self.now) }
    {
        let days = self.days.as_slice().to_vec(alloc)?;
        let closures = self.closures.as_slice().to_vec(alloc)?;
        Ok(BespokeHolidays {
            weekend: self.weekend,
            days,
            closures,
        })
    }
}

// Returns whether a day is in an ascending list.
fn is_listed(days: &[Day], day: Day) -> bool
    requires { IsSorted int_cmp days.now }
    ensures { result ≡ list_any (int_eq day) days.now }
{
    days.binary_search(&day).is_ok()
}

// Returns whether each weekday is a holiday.
fn all_named(weekend: &[bool]) -> bool
    ensures { result ≡ list_all (λ named. named) weekend.now }
{
    weekend.iter().all(|named| *named)
}

/// Makes the calendar whose holidays are these weekdays, with Monday first, and the days of a list in any order.
///
/// # Errors
///
/// `AllWeekend` where all seven weekdays are holidays, and `NoMemory`.
pub fn bespoke(alloc: Global, weekend: [bool; 7], days: DayList) -> Result<Base, BespokeFault>
    ensures ok { IfOk result (λ base. base ≡ Base.Bespoke (closed_on weekend days)) }
    ensures weekend { (result ≡ Err BespokeFault.AllWeekend) ↔ (list_all (λ named. named) weekend ≡ true) }
{
    if all_named(&weekend) {
        return Err(BespokeFault::AllWeekend);
    }
    let mut days = days.items().to_vec(alloc)?;
    days.sort_unstable();
    let closures = closures_of(weekend, &days, alloc)?;
    Ok(Base::Bespoke(BespokeHolidays {
        weekend,
        days,
        closures,
    }))
}
