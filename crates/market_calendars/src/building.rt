// Calendars as terms hold them.
ghost use Rattle.std.specs.Prelude.{◌≡◌, option_copied};
ghost use Rattle.market_tables.specs.Given.{Gives, Says};
ghost use Rattle.market_calendars.specs.Building.{base_of, bases_of, joined, built, calendar_named};

use crate::places::MOST_PARTS;
use crate::{Calendars, NamedCalendar};
use desk_names::is_name;
use holiday_calendars::{Base, BaseList, Calendar, JointFault, JointRule, joint};
use market_tables::{MarketKind, NameText, TableFault};
use std::alloc::Global;

// Copies a single calendar.
fn base_of(alloc: Global, calendar: Option<&NamedCalendar>) -> Result<Base, TableFault>
    ensures { Gives (λ base. base) result (base_of (option_copied calendar.entry)) }
{
    match calendar {
        Some(NamedCalendar::One(base)) => Ok(base.copy(alloc)?),
        Some(NamedCalendar::Joint { .. }) => Err(TableFault::Kind(MarketKind::Kind)),
        None => Err(TableFault::Kind(MarketKind::Unknown)),
    }
}

// Copies the parts of a joint calendar.
fn bases_of(calendars: &Calendars, names: &[NameText]) -> Result<BaseList, TableFault>
    ensures { Gives (λ bases. bases) result (bases_of calendars.now names.now) }
{
    let alloc = calendars.alloc();
    let mut bases = BaseList::new(alloc);
    for name in names {
        bases.push(base_of(alloc, calendars.named(name.text()))?)?;
    }
    Ok(bases)
}

// Makes a joint calendar of one to eight parts.
fn joined(rule: JointRule, bases: BaseList) -> Result<Calendar, TableFault>
    ensures { Says (λ calendar. calendar) result (joined rule bases) }
{
    if bases.len() == 0 || bases.len() > MOST_PARTS {
        return Err(TableFault::Kind(MarketKind::Parts));
    }
    match joint(rule, bases) {
        Ok(calendar) => Ok(calendar),
        Err(JointFault::NoParts) => Err(TableFault::Kind(MarketKind::Parts)),
        Err(JointFault::TooMany) => Err(TableFault::Kind(MarketKind::Parts)),
    }
}

fn built(calendars: &Calendars, found: Option<&NamedCalendar>) -> Result<Calendar, TableFault>
    ensures { Gives (λ calendar. calendar) result (built calendars.now (option_copied found.entry)) }
{
    match found {
        Some(NamedCalendar::One(base)) => Ok(Calendar::one(base.copy(calendars.alloc())?)),
        Some(NamedCalendar::Joint { rule, parts }) => {
            let bases = bases_of(calendars, parts.items())?;
            joined(*rule, bases)
        }
        None => Err(TableFault::Kind(MarketKind::Unknown)),
    }
}

impl Calendars {
    ghost use Rattle.market_tables.specs.Given.{Gives};
    ghost use Rattle.market_calendars.specs.Building.{calendar_named};

    /// Returns a copy of the calendar of a name.
    ///
    /// # Errors
    ///
    /// `Name` where the text is no name, `Unknown` where it names no calendar, `NoMemory` where memory runs out.
    pub fn built(&self, text: &[u8]) -> Result<Calendar, TableFault>
        ensures { Gives (λ calendar. calendar) result (calendar_named self.now text.now) }
    {
        if !is_name(text) {
            return Err(TableFault::Kind(MarketKind::Name));
        }
        built(self, self.named(text))
    }
}
