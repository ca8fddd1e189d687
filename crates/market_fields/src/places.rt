// The values of places without tables in them.
ghost use Rattle.std.specs.Prelude.{◌≡◌};
ghost use Rattle.toml.specs.View.{view};
ghost use Rattle.market_tables.specs.Given.{Gives, Says};
ghost use Rattle.market_fields.specs.Earlier.{seen};
ghost use Rattle.market_fields.specs.Places as due;
ghost use Rattle.market_fields.specs.Words.{convention_of, counter_of};

use crate::field::Field;
use crate::keys::ObjectPlace;
use crate::{Earlier, Named, Notional, Sign, TermRate, served};
use day_number::{Convention, Tenor, Unit, read_tenor};
use desk_terms::{HandleKind, Wanted};
use market_tables::{MarketKind, TableFault, day_in, integer_in, text_in};
use schedule_rules::Rule;
use std::alloc::Global;
use toml::Value;
use year_parts::Counter;

// The fault of a word that is none of the choices.
const NO_CHOICE: TableFault = TableFault::Kind(MarketKind::Choice);

/// The greatest magnitude of a weight.
const MOST_WEIGHT: i64 = 1_000_000;

/// The greatest number of settlement days or fixing days.
const MOST_DAYS: i64 = 30;

fn name_field(alloc: Global, earlier: Earlier<'_>, value: &Value) -> Result<Field, TableFault>
    ensures { Gives (λ f. f) result (due.name_field (seen earlier.entry) (view value.now)) }
{
    let text = text_in(value)?;
    Ok(Field::Name(earlier.new_name(alloc, text.as_bytes())?))
}

// Returns the object that a value names.
fn named_at(earlier: Earlier<'_>, value: &Value) -> Result<Named, TableFault>
    ensures { Says (λ n. n) result (due.named_at (seen earlier.entry) (view value.now)) }
{
    let text = text_in(value)?;
    earlier.named_object(text.as_bytes())
}

fn object_field(earlier: Earlier<'_>, wanted: Wanted, value: &Value) -> Result<Field, TableFault>
    ensures { Says (λ f. f) result (due.object_field (seen earlier.entry) wanted (view value.now)) }
{
    let named = named_at(earlier, value)?;
    Ok(Field::Object(served(named, wanted)?))
}

fn any_object_field(earlier: Earlier<'_>, value: &Value) -> Result<Field, TableFault>
    ensures { Says (λ f. f) result (due.any_object_field (seen earlier.entry) (view value.now)) }
{
    Ok(Field::Named(named_at(earlier, value)?))
}

fn day_field(value: &Value) -> Result<Field, TableFault>
    ensures { Says (λ f. f) result (due.day_field (view value.now)) }
{
    Ok(Field::Day(day_in(value)?))
}

fn weight_field(value: &Value) -> Result<Field, TableFault>
    ensures { Says (λ f. f) result (due.weight_field (view value.now)) }
{
    let weight = integer_in(value, -MOST_WEIGHT, MOST_WEIGHT)?;
    if weight == 0 {
        return Err(TableFault::Kind(MarketKind::Number));
    }
    Ok(Field::Weight(weight))
}

fn calendar_field(earlier: Earlier<'_>, value: &Value) -> Result<Field, TableFault>
    ensures { Gives (λ f. f) result (due.calendar_field (seen earlier.entry) (view value.now)) }
{
    let text = text_in(value)?;
    Ok(Field::Calendar(earlier.calendars.built(text.as_bytes())?))
}

// Returns a number of days from 0 to 30, or `Number`.
fn count_of(number: i64) -> Result<u8, TableFault>
    ensures { Says (λ n. n) result (due.count_of number) }
{
    if 0 <= number && number <= MOST_DAYS {
        return Ok(number.unsigned_abs() as u8);
    }
    Err(TableFault::Kind(MarketKind::Number))
}

fn count_field(value: &Value) -> Result<Field, TableFault>
    ensures { Says (λ f. f) result (due.count_field (view value.now)) }
{
    match value.as_integer() {
        Some(number) => Ok(Field::Count(count_of(number)?)),
        None => Err(TableFault::Kind(MarketKind::Key)),
    }
}

// Returns the tenor of a string, or `Number`.
fn tenor_in(value: &Value) -> Result<Tenor, TableFault>
    ensures { Says (λ tenor. tenor) result (due.tenor_in (view value.now)) }
{
    match read_tenor(text_in(value)?.as_bytes()) {
        Some(tenor) => Ok(tenor),
        None => Err(TableFault::Kind(MarketKind::Number)),
    }
}

// Returns the tenor if it is of months or years, or `Number`.
fn months_of(tenor: Tenor) -> Result<Tenor, TableFault>
    ensures { Says (λ tenor. tenor) result (due.months_of tenor) }
{
    match tenor.unit {
        Unit::Months | Unit::Years => Ok(tenor),
        Unit::Days | Unit::Weeks => Err(TableFault::Kind(MarketKind::Number)),
    }
}

fn tenor_field(value: &Value) -> Result<Field, TableFault>
    ensures { Says (λ f. f) result (due.tenor_field (view value.now)) }
{
    Ok(Field::Tenor(tenor_in(value)?))
}

fn months_field(value: &Value) -> Result<Field, TableFault>
    ensures { Says (λ f. f) result (due.months_field (view value.now)) }
{
    let tenor = tenor_in(value)?;
    Ok(Field::Tenor(months_of(tenor)?))
}

fn flag_field(value: &Value) -> Result<Field, TableFault>
    ensures { Says (λ f. f) result (due.flag_field (view value.now)) }
{
    match value.as_bool() {
        Some(flag) => Ok(Field::Flag(flag)),
        None => Err(TableFault::Kind(MarketKind::Key)),
    }
}

fn notional_field(value: &Value) -> Result<Field, TableFault>
    ensures { Says (λ f. f) result (due.notional_field (view value.now)) }
{
    let text = text_in(value)?;
    Ok(Field::Notional(Notional::read(text.as_bytes())?))
}

fn rate_field(value: &Value) -> Result<Field, TableFault>
    ensures { Says (λ f. f) result (due.rate_field (view value.now)) }
{
    let text = text_in(value)?;
    Ok(Field::Rate(TermRate::read(text.as_bytes())?))
}

// Reads the kind of a handle's target.
fn target_field(value: &Value) -> Result<Field, TableFault>
    ensures { Says (λ f. f) result (due.target_field (view value.now)) }
{
    match text_in(value)? {
        "quote" => Ok(Field::Target(HandleKind::Quote)),
        "curve" => Ok(Field::Target(HandleKind::Curve)),
        _ => Err(NO_CHOICE),
    }
}

// Reads the rule of schedules.
fn rule_field(value: &Value) -> Result<Field, TableFault>
    ensures { Says (λ f. f) result (due.rule_field (view value.now)) }
{
    match text_in(value)? {
        "backward" => Ok(Field::Rule(Rule::Backward)),
        "forward" => Ok(Field::Rule(Rule::Forward)),
        "zero" => Ok(Field::Rule(Rule::Zero)),
        _ => Err(NO_CHOICE),
    }
}

// Reads the business-day convention.
fn convention_of(word: &str) -> Result<Convention, TableFault>
    ensures { Says (λ said. said) result (convention_of word.now) }
{
    match word {
        "unadjusted" => Ok(Convention::Unadjusted),
        "following" => Ok(Convention::Following),
        "preceding" => Ok(Convention::Preceding),
        "modified_following" => Ok(Convention::ModifiedFollowing),
        "modified_preceding" => Ok(Convention::ModifiedPreceding),
        "half_month_modified_following" => Ok(Convention::HalfMonthModifiedFollowing),
        "nearest" => Ok(Convention::Nearest),
        _ => Err(NO_CHOICE),
    }
}

fn convention_field(value: &Value) -> Result<Field, TableFault>
    ensures { Says (λ f. f) result (due.convention_field (view value.now)) }
{
    Ok(Field::Convention(convention_of(text_in(value)?)?))
}

// Reads the day counter.
fn counter_of(word: &str) -> Result<Counter, TableFault>
    ensures { Says (λ said. said) result (counter_of word.now) }
{
    match word {
        "act360" => Ok(Counter::Act360),
        "act365" => Ok(Counter::Act365),
        "actact" => Ok(Counter::ActAct),
        "thirty360" => Ok(Counter::Thirty360),
        "thirtye360" => Ok(Counter::ThirtyE360),
        "bus252" => Ok(Counter::Bus252),
        _ => Err(NO_CHOICE),
    }
}

fn counter_field(value: &Value) -> Result<Field, TableFault>
    ensures { Says (λ f. f) result (due.counter_field (view value.now)) }
{
    Ok(Field::Counter(counter_of(text_in(value)?)?))
}

// Reads the sign of a swap's fixed leg: it is negative if the leg is paid.
fn leg_field(value: &Value) -> Result<Field, TableFault>
    ensures { Says (λ f. f) result (due.leg_field (view value.now)) }
{
    match text_in(value)? {
        "pay" => Ok(Field::Sign(Sign::Minus)),
        "receive" => Ok(Field::Sign(Sign::Plus)),
        _ => Err(NO_CHOICE),
    }
}

// Reads the sign of a forward rate agreement: it is negative for the short side.
fn position_field(value: &Value) -> Result<Field, TableFault>
    ensures { Says (λ f. f) result (due.position_field (view value.now)) }
{
    match text_in(value)? {
        "long" => Ok(Field::Sign(Sign::Plus)),
        "short" => Ok(Field::Sign(Sign::Minus)),
        _ => Err(NO_CHOICE),
    }
}

// Reads the value of a place without tables in it.
pub(crate) fn plain_field(
    alloc: Global,
    earlier: Earlier<'_>,
    place: ObjectPlace,
    value: &Value,
) -> Result<Field, TableFault>
    ensures { Gives (λ f. f) result (due.plain_field (seen earlier.entry) place (view value.now)) }
{
    match place {
        ObjectPlace::NewName => name_field(alloc, earlier, value),
        ObjectPlace::Object(wanted) => object_field(earlier, wanted, value),
        ObjectPlace::AnyObject => any_object_field(earlier, value),
        ObjectPlace::Target => target_field(value),
        ObjectPlace::Day => day_field(value),
        ObjectPlace::Weight => weight_field(value),
        ObjectPlace::Calendar => calendar_field(earlier, value),
        ObjectPlace::Count => count_field(value),
        ObjectPlace::Tenor => tenor_field(value),
        ObjectPlace::Months => months_field(value),
        ObjectPlace::Rule => rule_field(value),
        ObjectPlace::Convention => convention_field(value),
        ObjectPlace::Flag => flag_field(value),
        ObjectPlace::Counter => counter_field(value),
        ObjectPlace::Notional => notional_field(value),
        ObjectPlace::Rate => rate_field(value),
        ObjectPlace::Leg => leg_field(value),
        ObjectPlace::Position => position_field(value),
        ObjectPlace::Parts | ObjectPlace::Helpers => Err(TableFault::Kind(MarketKind::Key)),
    }
}
