// The values of an object's keys, and readers for fields that stay in place.
ghost use Rattle.std.specs.Prelude.{◌≡◌, Option, option_copied};
ghost use Rattle.market_tables.specs.Fields.{field_in};
ghost use Rattle.market_tables.specs.Given.{Says};
ghost use Rattle.market_fields.specs.Field.{must, object_in, named_in, target_in, day_in, weight_in, count_in, tenor_in, rule_in, convention_in, flag_in, counter_in, notional_in, rate_in, sign_in, calendar_in};

use crate::{Named, Notional, Sign, TermRate};
use day_number::{Convention, Day, Tenor};
use desk_names::ObjId;
use desk_terms::{HandleKind, HelperList, PartList};
use holiday_calendars::Calendar;
use market_tables::{MarketKind, NameText, TableFault};
use schedule_rules::Rule;
use year_parts::Counter;

/// The value of a key of an object.
#[derive(Drop)]
pub enum Field {
    Name(NameText),
    Object(ObjId),
    Named(Named),
    Target(HandleKind),
    Day(Day),
    Weight(i64),
    Parts(PartList),
    Calendar(Calendar),
    Count(u8),
    Helpers(HelperList),
    Tenor(Tenor),
    Rule(Rule),
    Convention(Convention),
    Flag(bool),
    Counter(Counter),
    Notional(Notional),
    Rate(TermRate),
    Sign(Sign),
}

// The fault of a field that is missing, or of another sort.
pub(crate) const NO_FIELD: TableFault = TableFault::Kind(MarketKind::Key);

// Returns the field at a position, if the table has it.
#[tactic(auto, using(market_tables::proofs::FieldPlaces::got, market_tables::proofs::FieldPlaces::past))]
fn field_at(fields: &[Option<Field>], at: usize) -> Option<&Field>
    ensures { option_copied result ≡ field_in fields.now at }
{
    if at < fields.len() {
        fields[at].as_ref()
    } else {
        None
    }
}

/// Returns the object of a field, if the table has the field.
///
/// # Errors
///
/// `Key` where the field is of another sort.
pub fn object_at(fields: &[Option<Field>], at: usize) -> Result<Option<ObjId>, TableFault>
    ensures { Says (λ found. found) result (object_in (field_in fields.now at)) }
{
    match field_at(fields, at) {
        Some(Field::Object(object)) => Ok(Some(*object)),
        Some(_) => Err(NO_FIELD),
        None => Ok(None),
    }
}

/// Returns the object with its kind of a field, if the table has the field.
///
/// # Errors
///
/// `Key` where the field is of another sort.
pub fn named_at(fields: &[Option<Field>], at: usize) -> Result<Option<Named>, TableFault>
    ensures { Says (λ found. found) result (named_in (field_in fields.now at)) }
{
    match field_at(fields, at) {
        Some(Field::Named(named)) => Ok(Some(*named)),
        Some(_) => Err(NO_FIELD),
        None => Ok(None),
    }
}

/// Returns the day of a field, if the table has the field.
///
/// # Errors
///
/// `Key` where the field is of another sort.
pub fn day_at(fields: &[Option<Field>], at: usize) -> Result<Option<Day>, TableFault>
    ensures { Says (λ found. found) result (day_in (field_in fields.now at)) }
{
    match field_at(fields, at) {
        Some(Field::Day(day)) => Ok(Some(*day)),
        Some(_) => Err(NO_FIELD),
        None => Ok(None),
    }
}

/// Returns the number of days of a field, if the table has the field.
///
/// # Errors
///
/// `Key` where the field is of another sort.
pub fn count_at(fields: &[Option<Field>], at: usize) -> Result<Option<u8>, TableFault>
    ensures { Says (λ found. found) result (count_in (field_in fields.now at)) }
{
    match field_at(fields, at) {
        Some(Field::Count(count)) => Ok(Some(*count)),
        Some(_) => Err(NO_FIELD),
        None => Ok(None),
    }
}

/// Returns the rule of a field, if the table has the field.
///
/// # Errors
///
/// `Key` where the field is of another sort.
pub fn rule_at(fields: &[Option<Field>], at: usize) -> Result<Option<Rule>, TableFault>
    ensures { Says (λ found. found) result (rule_in (field_in fields.now at)) }
{
    match field_at(fields, at) {
        Some(Field::Rule(rule)) => Ok(Some(*rule)),
        Some(_) => Err(NO_FIELD),
        None => Ok(None),
    }
}

/// Returns the convention of a field, if the table has the field.
///
/// # Errors
///
/// `Key` where the field is of another sort.
pub fn convention_at(fields: &[Option<Field>], at: usize) -> Result<Option<Convention>, TableFault>
    ensures { Says (λ found. found) result (convention_in (field_in fields.now at)) }
{
    match field_at(fields, at) {
        Some(Field::Convention(convention)) => Ok(Some(*convention)),
        Some(_) => Err(NO_FIELD),
        None => Ok(None),
    }
}

/// Returns the flag of a field, if the table has the field.
///
/// # Errors
///
/// `Key` where the field is of another sort.
pub fn flag_at(fields: &[Option<Field>], at: usize) -> Result<Option<bool>, TableFault>
    ensures { Says (λ found. found) result (flag_in (field_in fields.now at)) }
{
    match field_at(fields, at) {
        Some(Field::Flag(flag)) => Ok(Some(*flag)),
        Some(_) => Err(NO_FIELD),
        None => Ok(None),
    }
}

/// Returns the rate of a field, if the table has the field.
///
/// # Errors
///
/// `Key` where the field is of another sort.
pub fn rate_at(fields: &[Option<Field>], at: usize) -> Result<Option<TermRate>, TableFault>
    ensures { Says (λ found. found) result (rate_in (field_in fields.now at)) }
{
    match field_at(fields, at) {
        Some(Field::Rate(rate)) => Ok(Some(*rate)),
        Some(_) => Err(NO_FIELD),
        None => Ok(None),
    }
}

/// Returns the object of a field.
///
/// # Errors
///
/// `Key` where the table lacks the field.
pub fn needed_object(fields: &[Option<Field>], at: usize) -> Result<ObjId, TableFault>
    ensures { Says (λ said. said) result (must (object_in (field_in fields.now at))) }
{
    match field_at(fields, at) {
        Some(Field::Object(object)) => Ok(*object),
        Some(_) | None => Err(NO_FIELD),
    }
}

/// Returns the kind of target of a field.
///
/// # Errors
///
/// `Key` where the table lacks the field.
pub fn needed_target(fields: &[Option<Field>], at: usize) -> Result<HandleKind, TableFault>
    ensures { Says (λ said. said) result (must (target_in (field_in fields.now at))) }
{
    match field_at(fields, at) {
        Some(Field::Target(target)) => Ok(*target),
        Some(_) | None => Err(NO_FIELD),
    }
}

/// Returns the day of a field.
///
/// # Errors
///
/// `Key` where the table lacks the field.
pub fn needed_day(fields: &[Option<Field>], at: usize) -> Result<Day, TableFault>
    ensures { Says (λ said. said) result (must (day_in (field_in fields.now at))) }
{
    match field_at(fields, at) {
        Some(Field::Day(day)) => Ok(*day),
        Some(_) | None => Err(NO_FIELD),
    }
}

/// Returns the weight of a field.
///
/// # Errors
///
/// `Key` where the table lacks the field.
pub fn needed_weight(fields: &[Option<Field>], at: usize) -> Result<i64, TableFault>
    ensures { Says (λ said. said) result (must (weight_in (field_in fields.now at))) }
{
    match field_at(fields, at) {
        Some(Field::Weight(weight)) => Ok(*weight),
        Some(_) | None => Err(NO_FIELD),
    }
}

/// Returns the number of days of a field.
///
/// # Errors
///
/// `Key` where the table lacks the field.
pub fn needed_count(fields: &[Option<Field>], at: usize) -> Result<u8, TableFault>
    ensures { Says (λ said. said) result (must (count_in (field_in fields.now at))) }
{
    match field_at(fields, at) {
        Some(Field::Count(count)) => Ok(*count),
        Some(_) | None => Err(NO_FIELD),
    }
}

/// Returns the tenor of a field.
///
/// # Errors
///
/// `Key` where the table lacks the field.
pub fn needed_tenor(fields: &[Option<Field>], at: usize) -> Result<Tenor, TableFault>
    ensures { Says (λ said. said) result (must (tenor_in (field_in fields.now at))) }
{
    match field_at(fields, at) {
        Some(Field::Tenor(tenor)) => Ok(*tenor),
        Some(_) | None => Err(NO_FIELD),
    }
}

/// Returns the convention of a field.
///
/// # Errors
///
/// `Key` where the table lacks the field.
pub fn needed_convention(fields: &[Option<Field>], at: usize) -> Result<Convention, TableFault>
    ensures { Says (λ said. said) result (must (convention_in (field_in fields.now at))) }
{
    match field_at(fields, at) {
        Some(Field::Convention(convention)) => Ok(*convention),
        Some(_) | None => Err(NO_FIELD),
    }
}

/// Returns the day counter of a field.
///
/// # Errors
///
/// `Key` where the table lacks the field.
pub fn needed_counter(fields: &[Option<Field>], at: usize) -> Result<Counter, TableFault>
    ensures { Says (λ said. said) result (must (counter_in (field_in fields.now at))) }
{
    match field_at(fields, at) {
        Some(Field::Counter(counter)) => Ok(*counter),
        Some(_) | None => Err(NO_FIELD),
    }
}

/// Returns the notional of a field.
///
/// # Errors
///
/// `Key` where the table lacks the field.
pub fn needed_notional(fields: &[Option<Field>], at: usize) -> Result<Notional, TableFault>
    ensures { Says (λ said. said) result (must (notional_in (field_in fields.now at))) }
{
    match field_at(fields, at) {
        Some(Field::Notional(notional)) => Ok(*notional),
        Some(_) | None => Err(NO_FIELD),
    }
}

/// Returns the rate of a field.
///
/// # Errors
///
/// `Key` where the table lacks the field.
pub fn needed_rate(fields: &[Option<Field>], at: usize) -> Result<TermRate, TableFault>
    ensures { Says (λ said. said) result (must (rate_in (field_in fields.now at))) }
{
    match field_at(fields, at) {
        Some(Field::Rate(rate)) => Ok(*rate),
        Some(_) | None => Err(NO_FIELD),
    }
}

/// Returns the sign of a field.
///
/// # Errors
///
/// `Key` where the table lacks the field.
pub fn needed_sign(fields: &[Option<Field>], at: usize) -> Result<Sign, TableFault>
    ensures { Says (λ said. said) result (must (sign_in (field_in fields.now at))) }
{
    match field_at(fields, at) {
        Some(Field::Sign(sign)) => Ok(*sign),
        Some(_) | None => Err(NO_FIELD),
    }
}

/// Returns the calendar of a field.
///
/// # Errors
///
/// `Key` where the table lacks the field.
pub fn needed_calendar(fields: &[Option<Field>], at: usize) -> Result<&Calendar, TableFault>
    ensures { Says (λ cal. cal.now) result (must (calendar_in (field_in fields.now at))) }
{
    match field_at(fields, at) {
        Some(Field::Calendar(calendar)) => Ok(calendar),
        Some(_) | None => Err(NO_FIELD),
    }
}
