// The weekdays that are holidays of a custom calendar.
ghost use Rattle.std.specs.Prelude.{◌≡◌, Option, false};
ghost use Rattle.std.specs.List.{list_all};
ghost use Rattle.toml.specs.View.{view};
ghost use Rattle.market_tables.specs.Given.{Says};
ghost use Rattle.market_calendars.specs.Weekend.{weekday_of, weekday_in, has_weekday, flags_of, weekend_of};

use market_tables::{Element, MarketKind, TableFault, text_in};
use std::marker::Model;
use toml::Value;

/// Weekdays, but not all seven. Clauses see a flag for each, with Monday first.
#[derive(Clone, Copy)]
pub struct Weekend {
    named: [bool; 7],
}

impl Model for Weekend {
    ghost use Rattle.std.specs.Prelude.{◌≡◌, List, Bool, false};
    ghost use Rattle.std.specs.List.{list_all};

    ghost Value = { List Bool };

    ghost view = { λ w. w.named };

    ghost invariant = { λ w. list_all (λ named. named) w.named ≡ false };

    ghost inverse = { λ flags. record { named = flags } };
}

// Returns the weekday of a word, from Monday as 0.
fn weekday_of(text: &str) -> Option<u8>
    ensures { result ≡ weekday_of text.now }
{
    match text {
        "mon" => Some(0),
        "tue" => Some(1),
        "wed" => Some(2),
        "thu" => Some(3),
        "fri" => Some(4),
        "sat" => Some(5),
        "sun" => Some(6),
        _ => None,
    }
}

// Reads each weekday.
#[derive(Clone, Copy)]
pub(crate) struct WeekdayElement;

impl Element for WeekdayElement {
    ghost use Rattle.market_calendars.specs.Weekend.{weekday_in};

    type Made = u8;

    ghost made = { λ _. weekday_in };

    fn element(&self, value: &Value) -> Result<u8, TableFault>
        ensures { Says (λ day. day) result (weekday_in (view value.now)) }
    {
        match weekday_of(text_in(value)?) {
            Some(day) => Ok(day),
            None => Err(TableFault::Kind(MarketKind::Choice)),
        }
    }
}

fn has_weekday(days: &[u8], day: u8) -> bool
    ensures { result ≡ has_weekday days.now day }
{
    days.iter().any(|other| *other == day)
}

fn flags_of(days: &[u8]) -> [bool; 7]
    ensures { result ≡ flags_of days.now }
{
    [
        has_weekday(days, 0),
        has_weekday(days, 1),
        has_weekday(days, 2),
        has_weekday(days, 3),
        has_weekday(days, 4),
        has_weekday(days, 5),
        has_weekday(days, 6),
    ]
}

fn all_named(flags: &[bool]) -> bool
    ensures { result ≡ list_all (λ named. named) flags.now }
{
    flags.iter().all(|named| *named)
}

impl Weekend {
    /// Returns the weekdays of a list, or the fault `Weekend` where they are all seven.
    pub(crate) fn of(days: &[u8]) -> Result<Weekend, TableFault>
        ensures { Says (λ w. w) result (weekend_of (flags_of days.now)) }
    {
        let named = flags_of(days);
        if all_named(&named) {
            return Err(TableFault::Kind(MarketKind::Weekend));
        }
        Ok(Weekend { named })
    }

    /// Returns a flag for each weekday, with Monday first.
    pub(crate) fn flags(self) -> [bool; 7]
        ensures flags { result ≡ self }
        ensures open { list_all (λ named. named) self ≡ false }
    {
        self.named
    }
}
