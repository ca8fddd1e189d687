// The helpers of a curve, and the value of every place.
ghost use Rattle.std.specs.Prelude.{◌≡◌, ◌≤◌, Option, map, false};
ghost use Rattle.toml.specs.View.{view};
ghost use Rattle.market_tables.specs.Given.{Gives, Says};
ghost use Rattle.market_tables.specs.Table.{listed};
ghost use Rattle.market_fields.specs.Earlier.{seen};
ghost use Rattle.market_fields.specs.Keys.{helper_kind_of, helper_keys_of};
ghost use Rattle.market_fields.specs.Helpers.{helper_of, helper_made, counted, helpers_field, place_field};

use crate::field::{flag_at, needed_convention, needed_counter, needed_object, needed_tenor};
use crate::keys::{HelperKind, ObjectPlace};
use crate::parts::{RowReader, parts_field};
use crate::places::plain_field;
use crate::{Earlier, Field};
use day_number::Tenor;
use desk_terms::{Helper, HelperList};
use market_tables::{
    Element, Key, Kinds, MarketKind, Presence, TableFault, each, entry_of, table_in, tables_in,
};
use std::alloc::Global;
use toml::Value;

/// The greatest number of helpers of a curve.
const MOST_HELPERS: usize = 64;

impl<'a> Kinds for RowReader<'a> {
    ghost use Rattle.market_fields.specs.Keys as keys;

    type Kind = HelperKind;

    ghost kind_of = { keys.helper_kind_of };

    ghost keys_of = { keys.helper_keys_of };

    fn kind(word: &str) -> Option<HelperKind>
        ensures { result ≡ helper_kind_of word.now }
    {
        HelperKind::of_word(word)
    }

    fn keys(kind: HelperKind) -> &'static [Key<Presence, ObjectPlace>]
        ensures { map listed result.now ≡ helper_keys_of kind }
    {
        kind.keys()
    }
}

// Reads the tables of helpers.
#[derive(Clone, Copy)]
struct HelperElement<'a> {
    row: RowReader<'a>,
}

// Returns a helper with this frequency, from its fields. Its convention is at position `at`, and the rest follows.
fn helper_of(
    fields: &[Option<Field>],
    every: Option<Tenor>,
    at: usize,
) -> Result<Helper, TableFault>
    requires { at ≤ 3 }
    ensures { Says (λ helper. helper) result (helper_of fields.now every at) }
{
    let quote = needed_object(fields, 0)?;
    let tenor = needed_tenor(fields, 1)?;
    let conv = needed_convention(fields, at)?;
    let eom = flag_at(fields, at + 1)?.unwrap_or(false);
    let counter = needed_counter(fields, at + 2)?;
    Ok(Helper {
        quote,
        tenor,
        every,
        conv,
        eom,
        counter,
    })
}

// Returns a helper of a kind from its fields.
fn helper_made(kind: HelperKind, fields: &[Option<Field>]) -> Result<Helper, TableFault>
    ensures { Says (λ helper. helper) result (helper_made kind fields.now) }
{
    match kind {
        HelperKind::Deposit => helper_of(fields, None, 2),
        HelperKind::Swap => {
            let every = needed_tenor(fields, 2)?;
            helper_of(fields, Some(every), 3)
        }
    }
}

impl<'a> Element for HelperElement<'a> {
    ghost use Rattle.market_fields.specs.Earlier.{seen};
    ghost use Rattle.market_fields.specs.Helpers.{helper_in};

    type Made = Helper;

    ghost made = { λ r. helper_in (seen r.row.earlier) };

    fn element(&self, value: &Value) -> Result<Helper, TableFault> {
        let (kind, fields) = entry_of(self.row.alloc, &self.row, table_in(value)?)?;
        helper_made(kind, &fields)
    }
}

// Returns the helpers if there are 1 to 64, or `Parts`.
fn counted(helpers: HelperList) -> Result<HelperList, TableFault>
    ensures { Says (λ helpers. helpers) result (counted helpers) }
{
    if helpers.len() == 0 || helpers.len() > MOST_HELPERS {
        return Err(TableFault::Kind(MarketKind::Parts));
    }
    Ok(helpers)
}

fn helpers_field(alloc: Global, earlier: Earlier<'_>, value: &Value) -> Result<Field, TableFault>
    ensures { Gives (λ f. f) result (helpers_field (seen earlier.entry) (view value.now)) }
{
    let items = tables_in(value)?;
    let row = RowReader { alloc, earlier };
    let helpers = each(alloc, &HelperElement { row }, items)?;
    Ok(Field::Helpers(counted(helpers)?))
}

/// Returns the field for the value of a place.
///
/// # Errors
///
/// The fault of the value, or `NoMemory`.
pub fn place_field(
    alloc: Global,
    earlier: Earlier<'_>,
    place: ObjectPlace,
    value: &Value,
) -> Result<Field, TableFault>
    ensures { Gives (λ f. f) result (place_field (seen earlier.entry) place (view value.now)) }
{
    match place {
        ObjectPlace::Parts => parts_field(alloc, earlier, value),
        ObjectPlace::Helpers => helpers_field(alloc, earlier, value),
        ObjectPlace::NewName
        | ObjectPlace::Object(_)
        | ObjectPlace::AnyObject
        | ObjectPlace::Target
        | ObjectPlace::Day
        | ObjectPlace::Weight
        | ObjectPlace::Calendar
        | ObjectPlace::Count
        | ObjectPlace::Tenor
        | ObjectPlace::Months
        | ObjectPlace::Rule
        | ObjectPlace::Convention
        | ObjectPlace::Flag
        | ObjectPlace::Counter
        | ObjectPlace::Notional
        | ObjectPlace::Rate
        | ObjectPlace::Leg
        | ObjectPlace::Position => plain_field(alloc, earlier, place, value),
    }
}
