// When the keys of objects are required.
ghost use Rattle.std.specs.Prelude.{◌≡◌};
ghost use Rattle.toml.specs.View.{table_view};
ghost use Rattle.market_tables.specs.Given.{Says};
ghost use Rattle.market_fields.specs.Presence.{has, has_coupon_key, start, structure, required};

use market_tables::{MarketKind, TableFault, value_at};
use toml::Table;

/// When a key of an object is required in its table.
#[derive(Clone, Copy, PartialEq, Eq)]
pub enum KeyPresence {
    Always,
    Optional,
    /// Required in a curve without `reference`. A curve with both or neither is refused at this key.
    Start,
    /// Optional. The keys of a bond are checked against each other at this key.
    Structure,
    /// Required in a bond with coupons.
    WithCoupons,
}

/// Returns whether a table has a key.
pub(crate) fn has(table: &Table, word: &str) -> bool
    ensures { result ≡ has word.now (table_view table.now) }
{
    value_at(table, word).is_some()
}

// Returns whether a table has a key that only a bond with coupons has.
fn has_coupon_key(table: &Table) -> bool
    ensures { result ≡ has_coupon_key (table_view table.now) }
{
    has(table, "spread")
        || has(table, "every")
        || has(table, "rule")
        || has(table, "convention")
        || has(table, "end_convention")
        || has(table, "month_end")
        || has(table, "counter")
        || has(table, "first")
        || has(table, "last")
}

// Refuses a curve with both `settlement` and `reference`, or with neither.
fn start(table: &Table) -> Result<bool, TableFault>
    ensures { Says (λ must. must) result (start (table_view table.now)) }
{
    let moving = has(table, "settlement");
    let fixed = has(table, "reference");
    if (moving && fixed) || (!moving && !fixed) {
        return Err(TableFault::Kind(MarketKind::Key));
    }
    Ok(false)
}

// Refuses a bond with `coupon` and `index`, with keys of coupons and neither, or with `coupon` and `spread`.
fn structure(table: &Table) -> Result<bool, TableFault>
    ensures { Says (λ must. must) result (structure (table_view table.now)) }
{
    let coupon = has(table, "coupon");
    let index = has(table, "index");
    if (coupon && index)
        || (!coupon && !index && has_coupon_key(table))
        || (coupon && has(table, "spread"))
    {
        return Err(TableFault::Kind(MarketKind::Key));
    }
    Ok(false)
}

impl KeyPresence {
    /// Returns whether the key is required in the table.
    ///
    /// # Errors
    ///
    /// `Key` where the table's keys contradict each other.
    pub fn required(self, table: &Table) -> Result<bool, TableFault>
        ensures { Says (λ must. must) result (required self (table_view table.now)) }
    {
        match self {
            KeyPresence::Always => Ok(true),
            KeyPresence::Optional => Ok(false),
            KeyPresence::Start => start(table),
            KeyPresence::Structure => structure(table),
            KeyPresence::WithCoupons => Ok(has(table, "coupon") || has(table, "index")),
        }
    }
}
