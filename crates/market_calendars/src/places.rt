// The values of the places of calendars.
ghost use Rattle.std.specs.Prelude.{◌≡◌, Option};
ghost use Rattle.toml.specs.View.{view, items_view};
ghost use Rattle.market_tables.specs.Given.{Gives, Says};
ghost use Rattle.market_tables.specs.Values.{day_in};
ghost use Rattle.market_calendars.specs.Places.{text_pass, form_pass, known_pass, single_pass, weekend_field, holidays_field, rule_field, part_count, parts_field, name_field, place_field};

use crate::keys::CalendarPlace;
use crate::weekend::WeekdayElement;
use crate::{Calendars, NamedCalendar, PartNames, Weekend};
use day_number::{Day, DayList};
use desk_names::is_name;
use holiday_calendars::JointRule;
use market_tables::{Element, MarketKind, NameText, TableFault, day_in, each, items_in, text_in};
use std::alloc::Global;
use toml::Value;

/// The greatest number of parts of a joint calendar.
pub(crate) const MOST_PARTS: usize = 8;

/// The value of a key of a calendar.
#[derive(Drop)]
pub enum Field {
    Name(NameText),
    Weekend(Weekend),
    Holidays(DayList),
    Rule(JointRule),
    Parts(PartNames),
}

// Looks for an element that is no text.
#[derive(Clone, Copy)]
struct TextElement;

impl Element for TextElement {
    ghost use Rattle.market_calendars.specs.Places.{text_pass};

    type Made = ();

    ghost made = { λ _. text_pass };

    fn element(&self, value: &Value) -> Result<(), TableFault>
        ensures { Says (λ _. tt) result (text_pass (view value.now)) }
    {
        text_in(value)?;
        Ok(())
    }
}

// Reads each day.
#[derive(Clone, Copy)]
struct DayElement;

impl Element for DayElement {
    ghost use Rattle.market_tables.specs.Values.{day_in};

    type Made = Day;

    ghost made = { λ _. day_in };

    fn element(&self, value: &Value) -> Result<Day, TableFault>
        ensures { Says (λ day. day) result (day_in (view value.now)) }
    {
        day_in(value)
    }
}

// Looks for a text that is no name.
#[derive(Clone, Copy)]
struct FormElement;

impl Element for FormElement {
    ghost use Rattle.market_calendars.specs.Places.{form_pass};

    type Made = ();

    ghost made = { λ _. form_pass };

    fn element(&self, value: &Value) -> Result<(), TableFault>
        ensures { Says (λ _. tt) result (form_pass (view value.now)) }
    {
        if is_name(text_in(value)?.as_bytes()) {
            return Ok(());
        }
        Err(TableFault::Kind(MarketKind::Name))
    }
}

// Refuses a name of no calendar.
fn test_known(earlier: &Calendars, value: &Value) -> Result<(), TableFault>
    ensures { Says (λ _. tt) result (known_pass earlier.now (view value.now)) }
{
    match earlier.named(text_in(value)?.as_bytes()) {
        Some(_) => Ok(()),
        None => Err(TableFault::Kind(MarketKind::Unknown)),
    }
}

// Refuses a name of a joint calendar.
fn test_single(earlier: &Calendars, value: &Value) -> Result<(), TableFault>
    ensures { Says (λ _. tt) result (single_pass earlier.now (view value.now)) }
{
    match earlier.named(text_in(value)?.as_bytes()) {
        Some(NamedCalendar::One(_)) => Ok(()),
        Some(NamedCalendar::Joint { .. }) => Err(TableFault::Kind(MarketKind::Kind)),
        None => Err(TableFault::Kind(MarketKind::Unknown)),
    }
}

// Looks for a name of no calendar.
#[derive(Clone, Copy)]
struct KnownElement<'a> {
    earlier: &'a Calendars,
}

impl<'a> Element for KnownElement<'a> {
    ghost use Rattle.market_calendars.specs.Places.{known_pass};

    type Made = ();

    ghost made = { λ e. known_pass e.earlier.now };

    fn element(&self, value: &Value) -> Result<(), TableFault>
        ensures given { Gives (λ made. made) result (known_pass self.now.earlier.now (view value.now)) }
        ensures exact { Says (λ _. tt) result (known_pass self.now.earlier.now (view value.now)) }
    {
        test_known(self.earlier, value)
    }
}

// Looks for a name of a joint calendar.
#[derive(Clone, Copy)]
struct SingleElement<'a> {
    earlier: &'a Calendars,
}

impl<'a> Element for SingleElement<'a> {
    ghost use Rattle.market_calendars.specs.Places.{single_pass};

    type Made = ();

    ghost made = { λ e. single_pass e.earlier.now };

    fn element(&self, value: &Value) -> Result<(), TableFault>
        ensures given { Gives (λ made. made) result (single_pass self.now.earlier.now (view value.now)) }
        ensures exact { Says (λ _. tt) result (single_pass self.now.earlier.now (view value.now)) }
    {
        test_single(self.earlier, value)
    }
}

// Reads each name.
#[derive(Clone, Copy)]
struct NameElement {
    alloc: Global,
}

impl Element for NameElement {
    ghost use Rattle.market_calendars.specs.Places.{name_in};

    type Made = NameText;

    ghost made = { λ _. name_in };

    fn element(&self, value: &Value) -> Result<NameText, TableFault> {
        NameText::read(self.alloc, text_in(value)?.as_bytes())
    }
}

fn weekend_field(alloc: Global, value: &Value) -> Result<Field, TableFault>
    ensures { Gives (λ f. f) result (weekend_field (view value.now)) }
{
    let items = items_in(value)?;
    each(alloc, &TextElement, items)?;
    let days = each(alloc, &WeekdayElement, items)?;
    Ok(Field::Weekend(Weekend::of(days.items())?))
}

fn holidays_field(alloc: Global, value: &Value) -> Result<Field, TableFault>
    ensures { Gives (λ f. f) result (holidays_field (view value.now)) }
{
    let items = items_in(value)?;
    each(alloc, &TextElement, items)?;
    Ok(Field::Holidays(each(alloc, &DayElement, items)?))
}

fn rule_field(value: &Value) -> Result<Field, TableFault>
    ensures { Says (λ f. f) result (rule_field (view value.now)) }
{
    match text_in(value)? {
        "holidays" => Ok(Field::Rule(JointRule::Holidays)),
        "business" => Ok(Field::Rule(JointRule::BusinessDays)),
        _ => Err(TableFault::Kind(MarketKind::Choice)),
    }
}

// Refuses an array of no parts or of too many.
#[tactic(auto, using(crate::proofs::Counts::counted))]
fn part_count(items: &[Value]) -> Result<(), TableFault>
    ensures { Says (λ _. items_view items.now) result (part_count (items_view items.now)) }
{
    if items.is_empty() || items.len() > MOST_PARTS {
        return Err(TableFault::Kind(MarketKind::Parts));
    }
    Ok(())
}

fn parts_field(alloc: Global, earlier: &Calendars, value: &Value) -> Result<Field, TableFault>
    ensures { Gives (λ f. f) result (parts_field earlier.now (view value.now)) }
{
    let items = items_in(value)?;
    each(alloc, &TextElement, items)?;
    each(alloc, &FormElement, items)?;
    each(alloc, &KnownElement { earlier }, items)?;
    each(alloc, &SingleElement { earlier }, items)?;
    part_count(items)?;
    Ok(Field::Parts(each(alloc, &NameElement { alloc }, items)?))
}

fn name_field(alloc: Global, earlier: &Calendars, value: &Value) -> Result<Field, TableFault>
    ensures { Gives (λ f. f) result (name_field earlier.now (view value.now)) }
{
    let text = text_in(value)?;
    let name = NameText::read(alloc, text.as_bytes())?;
    if text == "today" || earlier.named(text.as_bytes()).is_some() {
        return Err(TableFault::Kind(MarketKind::Taken));
    }
    Ok(Field::Name(name))
}

// Reads the value of a place.
pub(crate) fn place_field(
    alloc: Global,
    earlier: &Calendars,
    place: CalendarPlace,
    value: &Value,
) -> Result<Field, TableFault>
    ensures { Gives (λ f. f) result (place_field earlier.now place (view value.now)) }
{
    match place {
        CalendarPlace::NewName => name_field(alloc, earlier, value),
        CalendarPlace::Weekend => weekend_field(alloc, value),
        CalendarPlace::Holidays => holidays_field(alloc, value),
        CalendarPlace::Rule => rule_field(value),
        CalendarPlace::Parts => parts_field(alloc, earlier, value),
    }
}
