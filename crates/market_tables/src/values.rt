// Values of TOML and texts of decimals, with the fault of each.
ghost use Rattle.std.specs.Prelude.{◌≡◌, ◌≤◌, unsigned_abs, IfOk};
ghost use Rattle.toml.specs.View.{view, items_view, table_view};
ghost use Rattle.market_tables.specs.Given.{Says};
ghost use Rattle.market_tables.specs.Values.{text_in, integer_in, integer_of, day_in, day_of, items_in, table_in, are_tables, tables_in, decimal_of};

use crate::{MarketKind, TableFault};
use day_number::{Day, read_day};
use fixed_amount::read_decimal;
use toml::{Table, Value};

/// Returns the text of a string.
///
/// # Errors
///
/// `Key` where the value is no string.
pub fn text_in(value: &Value) -> Result<&str, TableFault>
    ensures { Says (λ text. text.now) result (text_in (view value.now)) }
{
    match value.as_str() {
        Some(text) => Ok(text),
        None => Err(TableFault::Kind(MarketKind::Key)),
    }
}

// Returns a number from the least to the most, or `Number`.
fn integer_of(number: i64, least: i64, most: i64) -> Result<i64, TableFault>
    ensures { Says (λ n. n) result (integer_of least most number) }
{
    if least <= number && number <= most {
        return Ok(number);
    }
    Err(TableFault::Kind(MarketKind::Number))
}

/// Returns an integer from the least to the most.
///
/// # Errors
///
/// `Key` where the value is no integer, `Number` where it is beyond the limits.
pub fn integer_in(value: &Value, least: i64, most: i64) -> Result<i64, TableFault>
    ensures { Says (λ n. n) result (integer_in least most (view value.now)) }
{
    match value.as_integer() {
        Some(number) => integer_of(number, least, most),
        None => Err(TableFault::Kind(MarketKind::Key)),
    }
}

// Returns the day of a text `YYYY-MM-DD`, or `Date`.
fn day_of(text: &[u8]) -> Result<Day, TableFault>
    ensures { Says (λ day. day) result (day_of text.now) }
{
    match read_day(text) {
        Some(day) => Ok(day),
        None => Err(TableFault::Kind(MarketKind::Date)),
    }
}

/// Returns the day of a string.
///
/// # Errors
///
/// `Key` where the value is no string, `Date` where its text is no day in range.
pub fn day_in(value: &Value) -> Result<Day, TableFault>
    ensures { Says (λ day. day) result (day_in (view value.now)) }
{
    day_of(text_in(value)?.as_bytes())
}

/// Returns the items of an array.
///
/// # Errors
///
/// `Key` where the value is no array.
pub fn items_in(value: &Value) -> Result<&[Value], TableFault>
    ensures { Says (λ items. items_view items.now) result (items_in (view value.now)) }
{
    match value.as_array() {
        Some(items) => Ok(items.as_slice()),
        None => Err(TableFault::Kind(MarketKind::Key)),
    }
}

/// Returns the table of a value.
///
/// # Errors
///
/// `Key` where the value is no table.
pub fn table_in(value: &Value) -> Result<&Table, TableFault>
    ensures { Says (λ table. table_view table.now) result (table_in (view value.now)) }
{
    match value.as_table() {
        Some(table) => Ok(table),
        None => Err(TableFault::Kind(MarketKind::Key)),
    }
}

// Returns whether each item is a table.
fn are_tables(items: &[Value]) -> bool
    ensures { result ≡ are_tables (items_view items.now) }
{
    for item in items {
        if !item.is_table() {
            return false;
        }
    }
    true
}

/// Returns the tables of an array of tables.
///
/// # Errors
///
/// `Key` where the value is none.
pub fn tables_in(value: &Value) -> Result<&[Value], TableFault>
    ensures { Says (λ items. items_view items.now) result (tables_in (view value.now)) }
{
    let items = items_in(value)?;
    if are_tables(items) {
        return Ok(items);
    }
    Err(TableFault::Kind(MarketKind::Key))
}

/// Returns the units of a decimal with at most so many places and at most so many units in size.
///
/// # Errors
///
/// `Number` where the text is none.
pub fn decimal_of(text: &[u8], places: u8, most: u64) -> Result<i64, TableFault>
    requires { places ≤ 18 }
    ensures value { Says (λ units. units) result (decimal_of places most text.now) }
    ensures bound { IfOk result (λ units. unsigned_abs units ≤ most) }
{
    match read_decimal(text, places) {
        Ok(units) if units.unsigned_abs() <= most => Ok(units),
        Ok(_) | Err(_) => Err(TableFault::Kind(MarketKind::Number)),
    }
}
