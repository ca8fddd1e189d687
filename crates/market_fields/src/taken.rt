// Takes values out of fields.
ghost use Rattle.std.specs.Prelude.{◌≡◌, Option};
ghost use Rattle.market_tables.specs.Given.{Says};
ghost use Rattle.market_fields.specs.Field.{must, name_in, parts_in, calendar_in, helpers_in};

use crate::Field;
use crate::field::NO_FIELD;
use desk_terms::{HelperList, PartList};
use holiday_calendars::Calendar;
use market_tables::{NameText, TableFault};

/// Takes the name out of a field.
///
/// # Errors
///
/// `Key` where the table lacks the field.
pub fn taken_name(field: Option<Field>) -> Result<NameText, TableFault>
    ensures { Says (λ name. name) result (must (name_in field)) }
{
    match field {
        Some(Field::Name(name)) => Ok(name),
        Some(_) | None => Err(NO_FIELD),
    }
}

/// Takes the calendar out of a field.
///
/// # Errors
///
/// `Key` where the table lacks the field.
pub fn taken_calendar(field: Option<Field>) -> Result<Calendar, TableFault>
    ensures { Says (λ calendar. calendar) result (must (calendar_in field)) }
{
    match field {
        Some(Field::Calendar(calendar)) => Ok(calendar),
        Some(_) | None => Err(NO_FIELD),
    }
}

/// Takes the helpers out of a field.
///
/// # Errors
///
/// `Key` where the table lacks the field.
pub fn taken_helpers(field: Option<Field>) -> Result<HelperList, TableFault>
    ensures { Says (λ helpers. helpers) result (must (helpers_in field)) }
{
    match field {
        Some(Field::Helpers(helpers)) => Ok(helpers),
        Some(_) | None => Err(NO_FIELD),
    }
}

/// Takes the parts out of a field, if the table has it.
///
/// # Errors
///
/// `Key` where the field is of another sort.
pub fn taken_parts(field: Option<Field>) -> Result<Option<PartList>, TableFault>
    ensures { Says (λ found. found) result (parts_in field) }
{
    match field {
        Some(Field::Parts(parts)) => Ok(Some(parts)),
        Some(_) => Err(NO_FIELD),
        None => Ok(None),
    }
}
