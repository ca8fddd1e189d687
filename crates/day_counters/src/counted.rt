// The year fraction between two days.
ghost use Rattle.std.specs.Prelude.{◌≡◌, pos, ◌≤ℤ◌};
ghost use Rattle.year_parts.specs.Basis.{most_of_a_period};
ghost use Rattle.holiday_calendars.specs.Calendar.{is_business_day};
ghost use Rattle.day_counters.specs.Counter.{frac};

use crate::act_act::parts_before;
use crate::thirty::{bond_basis_days, european_days};
use day_number::Day;
use holiday_calendars::{Calendar, business_days};
use year_parts::{Basis, Counter, YearParts, of_days};

/// The part of the year from a day to one that is not before it, the last day not counted, as the counter counts it
/// (QuantLib's `Actual360`, `Actual365Fixed`, `ActualActual` with ISDA's rule, and `Thirty360` with Bond Basis and with
/// the European rule; `Business252` by the calendar, which plays no part for the others). At most the parts of 110,000
/// business days over 252.
#[tactic(auto, unfolding(crate::specs::Counter::frac))]
pub fn fraction(counter: Counter, cal: &Calendar, from: Day, to: Day) -> YearParts
    requires { from ≤ℤ to }
    ensures value { result ≡ pos (frac counter (is_business_day cal.now) from to) }
    ensures high { result ≤ℤ pos most_of_a_period }
{
    match counter {
        Counter::Act360 => of_days(to.number() - from.number(), Basis::D360),
        Counter::Act365 => of_days(to.number() - from.number(), Basis::D365),
        Counter::ActAct => YearParts(parts_before(to) - parts_before(from)),
        Counter::Thirty360 => of_days(bond_basis_days(from, to), Basis::D360),
        Counter::ThirtyE360 => of_days(european_days(from, to), Basis::D360),
        Counter::Bus252 => of_days(business_days(cal, from, to), Basis::D252),
    }
}
