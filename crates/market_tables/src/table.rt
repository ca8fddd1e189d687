// Reads the keys of a table.
ghost use Rattle.std.specs.Prelude.{◌≡◌, Option, option_map, map};
ghost use Rattle.toml.specs.View.{view, table_view};
ghost use Rattle.toml.specs.Data.{get_member};
ghost use Rattle.market_tables.specs.Given.{Gives};
ghost use Rattle.market_tables.specs.Table.{listed, field_at, field_in, fields_of, is_listed, may_have, are_listed, row_of};

use crate::{Key, MarketKind, Places, TableFault};
use std::alloc::Global;
use toml::{Table, Value};

/// Returns the value of a key.
pub fn value_at<'a>(table: &'a Table, word: &str) -> Option<&'a Value>
    ensures { option_map (λ v. view v.now) result ≡ get_member word.now (table_view table.now) }
{
    table.get(word)
}

// Returns the field of one key, which is required or optional.
fn field_at<R: Places>(
    reader: &R,
    must: bool,
    place: R::Place,
    value: Option<&Value>,
) -> Result<Option<R::Field>, TableFault>
    ensures { Gives (λ f. f) result (field_at (R.gives reader.now) must place (option_map (λ v. view v.now) value.entry)) }
{
    match value {
        Some(value) => Ok(Some(reader.field(place, value)?)),
        None if !must => Ok(None),
        None => Err(TableFault::Kind(MarketKind::Key)),
    }
}

// Returns the field of one key of a table.
fn field_in<R: Places>(
    reader: &R,
    key: &Key<R::Presence, R::Place>,
    table: &Table,
) -> Result<Option<R::Field>, TableFault>
    ensures { Gives (λ f. f) result (field_in (R.required reader.now) (R.gives reader.now) (listed key.now) (table_view table.now)) }
{
    let must = reader.must_stand(key.1, table)?;
    field_at(reader, must, key.2, value_at(table, key.0))
}

/// Returns the fields of a table's keys in listed order, or the first fault.
pub(crate) fn fields_of<R: Places>(
    alloc: Global,
    reader: &R,
    keys: &[Key<R::Presence, R::Place>],
    table: &Table,
) -> Result<Vec<Option<R::Field>>, TableFault>
    ensures { Gives (λ v. v.items) result (fields_of (R.required reader.now) (R.gives reader.now) (map listed keys.now) (table_view table.now)) }
{
    let mut fields = Vec::new(alloc);
    for key in keys {
        fields.push(field_in(reader, key, table)?)?;
    }
    Ok(fields)
}

// Returns whether the key is listed.
fn is_listed<W, P>(keys: &[Key<W, P>], word: &str) -> bool
    ensures { result ≡ is_listed (map listed keys.now) word.now }
{
    for listed in keys {
        if listed.0 == word {
            return true;
        }
    }
    false
}

// Returns whether a table, with kinds or without, may have the key.
fn may_have<W, P>(kinds: bool, keys: &[Key<W, P>], word: &str) -> bool
    ensures { result ≡ may_have kinds (map listed keys.now) word.now }
{
    (kinds && word == "kind") || is_listed(keys, word)
}

/// Returns whether each key of the table is listed.
pub(crate) fn are_listed<W, P>(kinds: bool, keys: &[Key<W, P>], table: &Table) -> bool
    ensures { result ≡ are_listed kinds (map listed keys.now) (table_view table.now) }
{
    table
        .keys()
        .all(|word| may_have(kinds, keys, word.as_str()))
}

/// Returns the fields of a table without kinds.
///
/// # Errors
///
/// Its first fault: `Key` for an unlisted key, then those of its keys in listed order. Or `NoMemory`.
pub fn row_of<R: Places>(
    alloc: Global,
    reader: &R,
    keys: &[Key<R::Presence, R::Place>],
    table: &Table,
) -> Result<Vec<Option<R::Field>>, TableFault>
    ensures { Gives (λ v. v.items) result (row_of (R.required reader.now) (R.gives reader.now) (map listed keys.now) (table_view table.now)) }
{
    if !are_listed(false, keys, table) {
        return Err(TableFault::Kind(MarketKind::Key));
    }
    fields_of(alloc, reader, keys, table)
}
