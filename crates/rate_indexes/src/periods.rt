// The deposit whose rate an index gives.
ghost use Rattle.std.specs.Prelude.{◌≡◌, IfOk, IfSome};
ghost use Rattle.holiday_calendars.specs.Calendar.{is_business_day};
ghost use Rattle.rate_indexes.specs.Period.{IsPeriod, value_day, maturity_day, period_between, period_at, period_of};

use day_counters::fraction;
use day_number::{Convention, Day, Unit};
use day_shift::advance;
use desk_names::ObjId;
use desk_terms::Cause;
use flow_terms::IndexTerms;
use holiday_calendars::Calendar;
use year_parts::{Counter, YearParts};

/// The value day, the maturity and the part of the year of an index's rate that is fixed on a day: the value day lies
/// the fixing days later, and the maturity the tenor after that (QuantLib's `IborIndex::valueDate`, `maturityDate` and
/// `dayCounter`). `DateRange` of the index `x` exactly where one of these days is not from 1901-01-01 to 2199-12-31, or
/// the maturity is not after the value day. The part of the year is counted by the index's calendar, and is at most that
/// of 110,000 days over 360.
#[tactic(auto, unfolding(crate::specs::Period::period_of))]
pub fn period(x: ObjId, terms: &IndexTerms, day: Day) -> Result<(Day, Day, YearParts), Cause>
    ensures value { result ≡ period_of x terms.now day }
    ensures range { IfOk result IsPeriod }
{
    match period_at(terms, day) {
        Some(found) => Ok(found),
        None => Err(Cause::DateRange(x)),
    }
}

// The same, where there is one.
fn period_at(terms: &IndexTerms, day: Day) -> Option<(Day, Day, YearParts)>
    ensures value { result ≡ period_at terms.now day }
    ensures range { IfSome result IsPeriod }
{
    let value = value_day(terms, day)?;
    let maturity = maturity_day(terms, value)?;
    period_between(terms.counter, &terms.cal, value, maturity)
}

// The day from which a rate that is fixed on a day runs.
fn value_day(terms: &IndexTerms, day: Day) -> Option<Day>
    ensures { result ≡ value_day terms.now day }
{
    let days = i32::from(terms.fixing_days);
    advance(
        &terms.cal,
        day,
        days,
        Unit::Days,
        Convention::Following,
        false,
    )
    .ok()
}

// The day to which a rate runs from its value day.
fn maturity_day(terms: &IndexTerms, value: Day) -> Option<Day>
    ensures { result ≡ maturity_day terms.now value }
{
    let tenor = terms.tenor;
    advance(
        &terms.cal,
        value,
        tenor.count,
        tenor.unit,
        terms.conv,
        terms.eom,
    )
    .ok()
}

// From a value day to a maturity after it.
fn period_between(
    counter: Counter,
    cal: &Calendar,
    value: Day,
    maturity: Day,
) -> Option<(Day, Day, YearParts)>
    ensures value { result ≡ period_between counter (is_business_day cal.now) value maturity }
    ensures range { IfSome result IsPeriod }
{
    if value < maturity {
        return Some((value, maturity, fraction(counter, cal, value, maturity)));
    }
    None
}
