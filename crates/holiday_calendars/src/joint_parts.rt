// Joint calendars.
ghost use Rattle.std.specs.Prelude.{◌≡◌, ◌↔◌, ◌<◌, length, IfOk, ◌≤ℤ◌};
ghost use Rattle.std.specs.List.{list_all, list_any};
ghost use Rattle.holiday_calendars.specs.Base.{is_base_day};
ghost use Rattle.holiday_calendars.specs.Stretch.{AreHolidaysAfter, AreHolidaysBefore};

use crate::bases::copy_of;
use crate::{Base, BaseList, Calendar};
use day_number::Day;
use std::alloc::{AllocError, Global};
use std::marker::Model;
use thiserror::Error;

/// How a joint calendar uses its parts (QuantLib's `JointCalendarRule`).
#[derive(Clone, Copy, PartialEq, Eq)]
pub enum JointRule {
    /// A holiday is a day that is a holiday of any part.
    Holidays,
    /// A business day is a day that is a business day of any part.
    BusinessDays,
}

/// Why there is no such joint calendar.
#[derive(Clone, Copy, Debug, PartialEq, Eq, Error)]
pub enum JointFault {
    /// There are no parts.
    #[error("a joint calendar of no parts")]
    NoParts,
    /// There are more than 8 parts.
    #[error("a joint calendar of more than 8 parts")]
    TooMany,
}

/// The rule and the one to eight parts of a joint calendar. Clauses see these.
pub struct JointParts {
    rule: JointRule,
    parts: BaseList,
}

// Each exit of an owner calls this once.
impl Drop for JointParts {
    fn drop(self) {
        let JointParts { rule: _, parts: _ } = self;
    }
}

impl Model for JointParts {
    ghost use Rattle.std.specs.Prelude.{length};
    ghost use Rattle.std.specs.Int.{IsInRange};
    ghost use Rattle.holiday_calendars.specs.Joined.{Joined};

    ghost Value = { Joined };

    ghost view = { λ j. record { rule = j.rule; parts = j.parts } };

    ghost invariant = { λ j. IsInRange 1 8 (length j.parts) };
}

impl JointParts {
    ghost use Rattle.std.specs.Prelude.{◌≡◌, IfOk, ◌≤ℤ◌};
    ghost use Rattle.holiday_calendars.specs.Joined.{is_joint_day};
    ghost use Rattle.holiday_calendars.specs.Stretch.{AreHolidaysAfter, AreHolidaysBefore};

    // Returns whether the rule makes the day a business day.
    pub(crate) fn is_business(&self, day: Day) -> bool
        ensures { result ≡ is_joint_day self.now day }
    {
        let parts = self.parts.items();
        match self.rule {
            JointRule::Holidays => all_open(parts, day),
            JointRule::BusinessDays => any_open(parts, day),
        }
    }

    // Returns the last day of the longest closure of a part that a day is in, or the day itself. By the rule of business days, where one
    // part's business day is enough, returns the day itself.
    pub(crate) fn closed_until(&self, day: Day) -> Day
        ensures order { day ≤ℤ result }
        ensures holidays { AreHolidaysAfter (is_joint_day self.now) day result }
    {
        match self.rule {
            JointRule::Holidays => latest(self.parts.items(), day),
            JointRule::BusinessDays => day,
        }
    }

    // Returns the first day of the longest closure of a part that a day is in, or the day itself, by the same rule.
    pub(crate) fn closed_since(&self, day: Day) -> Day
        ensures order { result ≤ℤ day }
        ensures holidays { AreHolidaysBefore (is_joint_day self.now) day result }
    {
        match self.rule {
            JointRule::Holidays => earliest(self.parts.items(), day),
            JointRule::BusinessDays => day,
        }
    }

    // Returns the same rule and equal parts.
    pub(crate) fn copy(&self, alloc: Global) -> Result<JointParts, AllocError>
        ensures { IfOk result (λ joined. joined ≡ self.now) }
    {
        let parts = copy_of(self.parts.items(), alloc)?;
        Ok(JointParts {
            rule: self.rule,
            parts,
        })
    }
}

// Returns whether the day is a business day of each part.
fn all_open(parts: &[Base], day: Day) -> bool
    ensures { result ≡ list_all (λ part. is_base_day part day) parts.now }
{
    parts.iter().all(|part| part.is_business(day))
}

// Returns whether the day is a business day of some part.
fn any_open(parts: &[Base], day: Day) -> bool
    ensures { result ≡ list_any (λ part. is_base_day part day) parts.now }
{
    parts.iter().any(|part| part.is_business(day))
}

// Returns the latest of the days until which parts are closed.
fn latest(parts: &[Base], day: Day) -> Day
    ensures order { day ≤ℤ result }
    ensures holidays { AreHolidaysAfter (λ x. list_all (λ part. is_base_day part x) parts.now) day result }
{
    let mut last = day;
    for part in parts {
        let end = part.closed_until(day);
        if last < end {
            last = end;
        }
    }
    last
}

// Returns the earliest of the days since which parts are closed.
fn earliest(parts: &[Base], day: Day) -> Day
    ensures order { result ≤ℤ day }
    ensures holidays { AreHolidaysBefore (λ x. list_all (λ part. is_base_day part x) parts.now) day result }
{
    let mut first = day;
    for part in parts {
        let start = part.closed_since(day);
        if start < first {
            first = start;
        }
    }
    first
}

/// Makes a joint calendar.
///
/// # Errors
///
/// `NoParts` without a part, `TooMany` with more than 8.
pub fn joint(rule: JointRule, parts: BaseList) -> Result<Calendar, JointFault>
    ensures ok { IfOk result (λ calendar. calendar ≡ Calendar.Joint (record { rule = rule; parts = parts })) }
    ensures none { (result ≡ Err JointFault.NoParts) ↔ (length parts ≡ 0) }
    ensures many { (result ≡ Err JointFault.TooMany) ↔ (8 < length parts) }
{
    if parts.len() == 0 {
        return Err(JointFault::NoParts);
    }
    if parts.len() > 8 {
        return Err(JointFault::TooMany);
    }
    Ok(Calendar::Joint(JointParts { rule, parts }))
}
