// What a schedule is made from.
use day_number::{Convention, Day, Tenor};
use holiday_calendars::Calendar;

/// How the days between start and end are found (QuantLib's DateGeneration).
#[derive(Clone, Copy, PartialEq, Eq)]
pub enum Rule {
    /// Steps from the end back.
    Backward,
    /// Steps from the start on.
    Forward,
    /// No steps: start and end alone.
    Zero,
}

/// What a schedule is made from (QuantLib's MakeSchedule).
#[derive(Clone, Copy)]
pub struct Plan<'a> {
    /// The day that the schedule begins on, before it is adjusted.
    pub start: Day,
    /// The day that it ends on, before it is adjusted.
    pub end: Day,
    /// The length of a step, of 1 to 22,000 days, 3,100 weeks, 720 months or 60 years.
    pub tenor: Tenor,
    /// The calendar whose business days are taken.
    pub cal: &'a Calendar,
    /// How each day but the end is adjusted.
    pub conv: Convention,
    /// How the end is adjusted.
    pub end_conv: Convention,
    /// How the days between are found.
    pub rule: Rule,
    /// Whether steps of months and years from the last day of a month lead to last days of months.
    pub eom: bool,
    /// The day that a first period of another length ends on.
    pub first: Option<Day>,
    /// The day that a last period of another length begins on.
    pub last: Option<Day>,
}
