// Makes calendars from the fields of their tables.
ghost use Rattle.std.specs.Prelude.{◌≡◌, Option, false};
ghost use Rattle.std.specs.List.{list_all};
ghost use Rattle.market_tables.specs.Fields.{field_in};
ghost use Rattle.market_tables.specs.Given.{Gives, Says};
ghost use Rattle.market_calendars.specs.Making.{name_in, weekend_in, days_in, rule_in, parts_in, bespoke_of, joint_of, calendar_of, entry_made};

use crate::keys::CalendarKind;
use crate::places::Field;
use crate::{NamedCalendar, PartNames, Weekend};
use day_number::DayList;
use holiday_calendars::{Base, BespokeFault, JointRule, bespoke};
use market_tables::{MarketKind, NameText, TableFault, take_field};
use std::alloc::Global;

// The fault of a field that is missing, or of another sort.
const NO_FIELD: TableFault = TableFault::Kind(MarketKind::Key);

fn name_in(field: Option<Field>) -> Result<NameText, TableFault>
    ensures { Says (λ name. name) result (name_in field) }
{
    match field {
        Some(Field::Name(name)) => Ok(name),
        Some(_) | None => Err(NO_FIELD),
    }
}

fn weekend_in(field: Option<Field>) -> Result<Weekend, TableFault>
    ensures { Says (λ weekend. weekend) result (weekend_in field) }
{
    match &field {
        Some(Field::Weekend(weekend)) => Ok(*weekend),
        Some(_) | None => Err(NO_FIELD),
    }
}

fn days_in(field: Option<Field>) -> Result<DayList, TableFault>
    ensures { Says (λ days. days) result (days_in field) }
{
    match field {
        Some(Field::Holidays(days)) => Ok(days),
        Some(_) | None => Err(NO_FIELD),
    }
}

fn rule_in(field: Option<Field>) -> Result<JointRule, TableFault>
    ensures { Says (λ rule. rule) result (rule_in field) }
{
    match field {
        Some(Field::Rule(rule)) => Ok(rule),
        Some(_) | None => Err(NO_FIELD),
    }
}

fn parts_in(field: Option<Field>) -> Result<PartNames, TableFault>
    ensures { Says (λ parts. parts) result (parts_in field) }
{
    match field {
        Some(Field::Parts(parts)) => Ok(parts),
        Some(_) | None => Err(NO_FIELD),
    }
}

#[tactic(auto, using(market_tables::proofs::FieldPlaces::other))]
fn bespoke_of(alloc: Global, fields: &mut Vec<Option<Field>>) -> Result<NamedCalendar, TableFault>
    ensures { Gives (λ calendar. calendar) result (bespoke_of (field_in fields.old.items 1) (field_in fields.old.items 2)) }
{
    let weekend = weekend_in(take_field(fields, 1))?;
    let days = days_in(take_field(fields, 2))?;
    match bespoke(alloc, weekend.flags(), days) {
        Ok(base) => Ok(NamedCalendar::One(base)),
        Err(BespokeFault::AllWeekend) => unreachable!(),
        Err(BespokeFault::NoMemory) => Err(TableFault::NoMemory),
    }
}

#[tactic(auto, using(market_tables::proofs::FieldPlaces::other))]
fn joint_of(fields: &mut Vec<Option<Field>>) -> Result<NamedCalendar, TableFault>
    ensures { Says (λ calendar. calendar) result (joint_of (field_in fields.old.items 1) (field_in fields.old.items 2)) }
{
    let rule = rule_in(take_field(fields, 1))?;
    let parts = parts_in(take_field(fields, 2))?;
    Ok(NamedCalendar::Joint { rule, parts })
}

// Makes a calendar of a kind from the fields after its name, and takes them out.
fn calendar_of(
    alloc: Global,
    kind: CalendarKind,
    fields: &mut Vec<Option<Field>>,
) -> Result<NamedCalendar, TableFault>
    ensures { Gives (λ calendar. calendar) result (calendar_of kind (field_in fields.old.items 1) (field_in fields.old.items 2)) }
{
    match kind {
        CalendarKind::Null => Ok(NamedCalendar::One(Base::Null)),
        CalendarKind::Weekends => Ok(NamedCalendar::One(Base::Weekends)),
        CalendarKind::Target => Ok(NamedCalendar::One(Base::Target)),
        CalendarKind::Bespoke => bespoke_of(alloc, fields),
        CalendarKind::Joint => joint_of(fields),
    }
}

// Makes the name and the calendar from the fields of a kind.
#[tactic(auto, using(market_tables::proofs::FieldPlaces::other))]
pub(crate) fn entry_made(
    alloc: Global,
    kind: CalendarKind,
    fields: Vec<Option<Field>>,
) -> Result<(NameText, NamedCalendar), TableFault>
    ensures { Gives (λ entry. (entry.0, entry.1)) result (entry_made kind fields.items) }
{
    let mut fields = fields;
    let name = name_in(take_field(&mut fields, 0))?;
    Ok((name, calendar_of(alloc, kind, &mut fields)?))
}
