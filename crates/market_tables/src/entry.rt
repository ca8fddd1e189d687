// Reads tables that have kinds.
ghost use Rattle.std.specs.Prelude.{◌≡◌, Option, option_map, map};
ghost use Rattle.toml.specs.View.{view, table_view};
ghost use Rattle.toml.specs.Data.{as_str};
ghost use Rattle.market_tables.specs.Given.{Gives, Says};
ghost use Rattle.market_tables.specs.Table.{kind_at, kind_in, entry_of};

use crate::table::{are_listed, fields_of, value_at};
use crate::{Kinds, MarketKind, TableFault};
use std::alloc::Global;
use toml::{Table, Value};

// Returns the kind that a value names.
fn kind_at<R: Kinds>(value: Option<&Value>) -> Result<R::Kind, TableFault>
    ensures { Says (λ k. k) result (kind_at R.kind_of (option_map (λ v. view v.now) value.entry)) }
{
    match value {
        Some(value) => match value.as_str() {
            Some(word) => match R::kind(word) {
                Some(kind) => Ok(kind),
                None => Err(TableFault::Kind(MarketKind::Choice)),
            },
            None => Err(TableFault::Kind(MarketKind::Key)),
        },
        None => Err(TableFault::Kind(MarketKind::Key)),
    }
}

// Returns the kind of a table.
fn kind_in<R: Kinds>(table: &Table) -> Result<R::Kind, TableFault>
    ensures { Says (λ k. k) result (kind_in R.kind_of (table_view table.now)) }
{
    kind_at::<R>(value_at(table, "kind"))
}

/// Returns the kind and the fields of a table.
///
/// # Errors
///
/// Its first fault: that of its kind, `Key` for an unlisted key, then those of its keys in listed order. Or `NoMemory`.
pub fn entry_of<R: Kinds>(
    alloc: Global,
    reader: &R,
    table: &Table,
) -> Result<(R::Kind, Vec<Option<R::Field>>), TableFault>
    ensures { Gives (λ e. (e.0, e.1.items)) result (entry_of R.kind_of R.keys_of (R.required reader.now) (R.gives reader.now) (table_view table.now)) }
{
    let kind = kind_in::<R>(table)?;
    let keys = R::keys(kind);
    if !are_listed(true, keys, table) {
        return Err(TableFault::Kind(MarketKind::Key));
    }
    Ok((kind, fields_of(alloc, reader, keys, table)?))
}
