// The tables of calendars.
ghost use Rattle.std.specs.Prelude.{◌≡◌, [], map};
ghost use Rattle.toml.specs.View.{view, items_view};
ghost use Rattle.market_tables.specs.Given.{Gives};
ghost use Rattle.market_tables.specs.Entries.{GivesAt};
ghost use Rattle.market_tables.specs.Table.{listed};
ghost use Rattle.market_calendars.specs.Keys.{keys_of, kind_of};
ghost use Rattle.market_calendars.specs.Reader.{entry_in, behind, calendars_in};

use crate::keys::{CalendarKind, CalendarPlace};
use crate::making::entry_made;
use crate::places::{Field, place_field};
use crate::{Calendars, NamedCalendar};
use market_tables::{
    EntryFault, Key, Kinds, NameText, Places, Presence, TableFault, TakesTables, entry_of,
    table_in, take_tables,
};
use std::alloc::Global;
use toml::{Table, Value};

// Reads the tables of calendars.
#[derive(Clone, Copy)]
struct CalendarReader<'a> {
    alloc: Global,
    earlier: &'a Calendars,
}

impl<'a> Places for CalendarReader<'a> {
    ghost use Rattle.std.specs.Prelude.{Ok};
    ghost use Rattle.market_tables.specs.Presence.{must_stand};
    ghost use Rattle.market_calendars.specs.Places as places;

    type Presence = Presence;

    type Place = CalendarPlace;

    type Field = Field;

    ghost required = { λ _ presence _. Ok (must_stand presence) };

    ghost gives = { λ r place d. places.place_field r.earlier.now place d };

    fn must_stand(&self, presence: Presence, _table: &Table) -> Result<bool, TableFault> {
        Ok(presence.must_stand())
    }

    fn field(&self, place: CalendarPlace, value: &Value) -> Result<Field, TableFault> {
        place_field(self.alloc, self.earlier, place, value)
    }
}

impl<'a> Kinds for CalendarReader<'a> {
    ghost use Rattle.market_calendars.specs.Keys as keys;

    type Kind = CalendarKind;

    ghost kind_of = { keys.kind_of };

    ghost keys_of = { keys.keys_of };

    fn kind(word: &str) -> Option<CalendarKind>
        ensures { result ≡ kind_of word.now }
    {
        CalendarKind::of_word(word)
    }

    fn keys(kind: CalendarKind) -> &'static [Key<Presence, CalendarPlace>]
        ensures { map listed result.now ≡ keys_of kind }
    {
        kind.keys()
    }
}

// Returns the name and the calendar of a table.
fn entry_in(earlier: &Calendars, value: &Value) -> Result<(NameText, NamedCalendar), TableFault>
    ensures { Gives (λ entry. (entry.0, entry.1)) result (entry_in earlier.now (view value.now)) }
{
    let alloc = earlier.alloc();
    let reader = CalendarReader { alloc, earlier };
    let (kind, fields) = entry_of(alloc, &reader, table_in(value)?)?;
    entry_made(alloc, kind, fields)
}

impl TakesTables for Calendars {
    ghost use Rattle.market_calendars.specs.Reader.{behind};

    ghost behind = { behind };

    fn take(&mut self, value: &Value) -> Result<(), TableFault> {
        let (name, calendar) = entry_in(self, value)?;
        self.add(&name, calendar)
    }
}

/// Reads tables of calendars.
///
/// # Errors
///
/// The first fault with the number of its table, from 1, or `NoMemory`.
pub fn read_calendars(alloc: Global, items: &[Value]) -> Result<Calendars, EntryFault>
    ensures { GivesAt (λ calendars. calendars) result (calendars_in (items_view items.now)) }
{
    let mut calendars = Calendars::new(alloc);
    match take_tables(&mut calendars, items) {
        Ok(()) => Ok(calendars),
        Err(fault) => Err(fault),
    }
}
