// The words of a row.
ghost use Rattle.std.specs.Prelude.{◌≡◌};
ghost use Rattle.row_markets.specs.Words.{calendar_of, convention_of, counter_of};

use day_number::Convention;
use holiday_calendars::{Base, Calendar};
use year_parts::Counter;

/// A calendar: N null, W weekends, T TARGET.
pub fn calendar_of(name: &str) -> Option<Calendar>
    ensures { result ≡ calendar_of name.now }
{
    match name {
        "N" => Some(Calendar::one(Base::Null)),
        "W" => Some(Calendar::one(Base::Weekends)),
        "T" => Some(Calendar::one(Base::Target)),
        _ => None,
    }
}

/// A convention: F following, P preceding, MF modified following.
pub fn convention_of(name: &str) -> Option<Convention>
    ensures { result ≡ convention_of name.now }
{
    match name {
        "F" => Some(Convention::Following),
        "P" => Some(Convention::Preceding),
        "MF" => Some(Convention::ModifiedFollowing),
        _ => None,
    }
}

/// A day counter.
pub fn counter_of(name: &str) -> Option<Counter>
    ensures { result ≡ counter_of name.now }
{
    match name {
        "act360" => Some(Counter::Act360),
        "act365" => Some(Counter::Act365),
        "actact" => Some(Counter::ActAct),
        "thirty360" => Some(Counter::Thirty360),
        "thirtye360" => Some(Counter::ThirtyE360),
        "bus252" => Some(Counter::Bus252),
        _ => None,
    }
}
