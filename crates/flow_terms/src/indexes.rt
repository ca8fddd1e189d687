// An interest-rate index.
use crate::Fixings;
use day_number::{Convention, Tenor};
use desk_names::ObjId;
use holiday_calendars::Calendar;
use year_parts::Counter;

/// The terms of an interest-rate index (QuantLib's `IborIndex`).
#[derive(Drop)]
pub struct IndexTerms {
    /// The calendar on which its days are counted and adjusted.
    pub cal: Calendar,
    /// How many business days lie from the day of a fixing to its value day.
    pub fixing_days: u8,
    /// How long a deposit at its rate runs from the value day.
    pub tenor: Tenor,
    /// How the deposit's end is adjusted.
    pub conv: Convention,
    /// Whether a day from a month's end leads to a month's end.
    pub eom: bool,
    /// How the deposit's days are counted as a part of a year.
    pub counter: Counter,
    /// The curve that its rates are forecast from, or the object that stands for one.
    pub curve: ObjId,
}

/// An index, as the price of an instrument sees it.
#[derive(Clone, Copy)]
pub struct IndexUse<'a> {
    /// The index's own number.
    pub object: ObjId,
    pub terms: &'a IndexTerms,
    pub fixings: &'a Fixings,
}
