// The versions of a market's format.
ghost use Rattle.std.specs.Prelude.{◌≡◌};
ghost use Rattle.toml.specs.View.{table_view};
ghost use Rattle.market_fields.specs.Version.{kind_there, has_later_key, is_later};

use crate::ObjectKind;
use crate::presence::has;
use market_tables::{MarketKind, TableFault, value_at};
use toml::Table;

/// A version of the format of markets.
#[derive(Clone, Copy, PartialEq, Eq)]
pub enum Version {
    /// Without payment lags, and without curves that have their own reference day.
    One,
    /// With both.
    Two,
}

// Returns the kind that a table names, if there is such a kind.
fn kind_there(table: &Table) -> Option<ObjectKind>
    ensures { result ≡ kind_there (table_view table.now) }
{
    let value = value_at(table, "kind")?;
    ObjectKind::of_word(value.as_str()?)
}

// Returns whether a table of this kind has a key that only version 2 has.
fn has_later_key(kind: ObjectKind, table: &Table) -> bool
    ensures { result ≡ has_later_key kind (table_view table.now) }
{
    match kind {
        ObjectKind::Curve => has(table, "reference"),
        ObjectKind::Bond | ObjectKind::Swap => has(table, "payment_lag"),
        ObjectKind::Sum
        | ObjectKind::Difference
        | ObjectKind::Handle
        | ObjectKind::Implied
        | ObjectKind::Index
        | ObjectKind::Engine
        | ObjectKind::Stock
        | ObjectKind::Composite
        | ObjectKind::Fra => false,
    }
}

// Returns whether a table has a key that only version 2 has.
fn is_later(table: &Table) -> bool
    ensures { result ≡ is_later (kind_there (table_view table.now)) (table_view table.now) }
{
    match kind_there(table) {
        Some(kind) => has_later_key(kind, table),
        None => false,
    }
}

impl Version {
    ghost use Rattle.market_tables.specs.Given.{Says};
    ghost use Rattle.market_fields.specs.Version.{in_version};

    /// Checks a table against the version.
    ///
    /// # Errors
    ///
    /// `Key` where the version is 1 and the table has a key that only version 2 has.
    pub fn test(self, table: &Table) -> Result<(), TableFault>
        ensures { Says (λ _. table_view table.now) result (in_version self (table_view table.now)) }
    {
        match self {
            Version::One => {
                if is_later(table) {
                    return Err(TableFault::Kind(MarketKind::Key));
                }
                Ok(())
            }
            Version::Two => Ok(()),
        }
    }
}
