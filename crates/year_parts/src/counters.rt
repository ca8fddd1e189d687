// The ways to count the days between two dates as a fraction of a year.

/// A day counter, as QuantLib names it.
#[derive(Clone, Copy, PartialEq, Eq)]
pub enum Counter {
    /// The days between the dates over 360 (`Actual360`).
    Act360,
    /// The days between the dates over 365 (`Actual365Fixed`).
    Act365,
    /// The days that lie in leap years over 366, and the others over 365 (`ActualActual`, ISDA).
    ActAct,
    /// Months of 30 days and years of 360, with the end's day 31 kept where the start's day is before 30
    /// (`Thirty360`, Bond Basis).
    Thirty360,
    /// Months of 30 days and years of 360, with each day 31 taken as 30 (`Thirty360`, European).
    ThirtyE360,
    /// The business days of a calendar from the first date to the second, which does not count, over 252 (`Business252`).
    Bus252,
}
