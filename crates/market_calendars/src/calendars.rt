// The calendars of a market so far, by name.
ghost use Rattle.std.specs.Prelude.{◌≡◌};
ghost use Rattle.std.specs.Str.{bytes_eq};

use holiday_calendars::{Base, JointRule};
use indexmap::IndexMap;
use item_lists::Items;
use market_tables::{NameText, TableFault};
use std::alloc::Global;
use std::marker::Model;

/// The names of the parts of a joint calendar, in order.
pub type PartNames = Items<NameText>;

/// A calendar as its table has it. A joint one names its parts, so that none is copied before it is used.
#[derive(Drop)]
pub enum NamedCalendar {
    One(Base),
    Joint { rule: JointRule, parts: PartNames },
}

/// The calendars so far. Clauses see the list of them in order, each with its name.
#[derive(Drop)]
pub struct Calendars {
    by_name: IndexMap<Vec<u8>, NamedCalendar>,
    alloc: Global,
}

impl Model for Calendars {
    ghost use Rattle.std.specs.Prelude.{map};
    ghost use Rattle.market_calendars.specs.Calendars.{Calendars};

    ghost Value = { Calendars };

    ghost view = { λ c. map (λ entry. (entry.0.items, entry.1)) c.by_name.entries };
}

impl Calendars {
    ghost use Rattle.std.specs.Prelude.{◌≡◌, [], option_copied};
    ghost use Rattle.market_tables.specs.Given.{Gives};
    ghost use Rattle.market_calendars.specs.Calendars.{named, with_calendar};
    ghost use Rattle.std.specs.Prelude.{Ok};

    /// Starts without calendars.
    pub fn new(alloc: Global) -> Calendars
        ensures { result ≡ [] }
    {
        Calendars {
            by_name: IndexMap::new(alloc),
            alloc,
        }
    }

    /// Returns the allocator of the calendars.
    pub fn alloc(&self) -> Global {
        self.alloc
    }

    /// Returns the calendar of a name, in a time that does not grow with the number of calendars.
    pub fn named(&self, name: &[u8]) -> Option<&NamedCalendar>
        ensures { option_copied result ≡ named self.now name.now }
    {
        self.by_name.get(name)
    }

    /// Appends a calendar, or replaces the one of that name.
    pub(crate) fn add(&mut self, name: &NameText, calendar: NamedCalendar) -> Result<(), TableFault>
        ensures { Gives (λ _. self.new) result (Ok (with_calendar self.old name.now calendar)) }
    {
        let name = name.text().to_vec(self.alloc)?;
        self.by_name.insert(name, calendar)?;
        Ok(())
    }
}
