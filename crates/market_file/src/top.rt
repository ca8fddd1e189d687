// The top table of a market.
ghost use Rattle.std.specs.Prelude.{◌≡◌, Option, map};
ghost use Rattle.toml.specs.View.{view, table_view};
ghost use Rattle.market_tables.specs.Given.{Gives, Says};
ghost use Rattle.market_tables.specs.Table.{listed};
ghost use Rattle.market_file.specs.Top.{top_keys, version_of, version_field, day_field, path_field, tables_field, version_in, today_in, path_in, top_made, top_of};

use day_number::Day;
use desk_names::PathText;
use market_fields::Version;
use market_tables::{
    Key, MarketKind, Places, Presence, TableFault, day_in, integer_in, row_of, tables_in,
    take_field, text_in,
};
use std::alloc::Global;
use toml::{Table, Value};

/// What a key of the top table takes.
#[derive(Clone, Copy, PartialEq, Eq)]
pub enum TopPlace {
    /// The version of the format, which is 1 or 2.
    Version,
    /// A day.
    Day,
    /// The path of a file, used as written.
    Path,
    /// An array of tables.
    Tables,
}

/// What a key of the top table gives.
#[derive(Drop)]
pub enum TopField {
    Version(Version),
    Day(Day),
    Path(PathText),
    Tables,
}

/// What a top table says besides its arrays of tables.
#[derive(Drop)]
pub struct TopTable {
    pub version: Version,
    pub today: Day,
    pub quotes: Option<PathText>,
    pub fixings: Option<PathText>,
}

// The keys of the top table, in listed order.
fn top_keys() -> &'static [Key<Presence, TopPlace>]
    ensures { map listed result.now ≡ top_keys }
{
    &[
        ("version", Presence::Always, TopPlace::Version),
        ("today", Presence::Always, TopPlace::Day),
        ("quotes", Presence::Optional, TopPlace::Path),
        ("fixings", Presence::Optional, TopPlace::Path),
        ("calendar", Presence::Optional, TopPlace::Tables),
        ("object", Presence::Optional, TopPlace::Tables),
    ]
}

// The version of a number, which is 1 or 2.
fn version_of(number: i64) -> Version
    ensures { result ≡ version_of number }
{
    if number == 1 {
        Version::One
    } else {
        Version::Two
    }
}

fn version_field(value: &Value) -> Result<TopField, TableFault>
    ensures { Says (λ f. f) result (version_field (view value.now)) }
{
    let number = integer_in(value, 1, 2)?;
    Ok(TopField::Version(version_of(number)))
}

fn day_field(value: &Value) -> Result<TopField, TableFault>
    ensures { Says (λ f. f) result (day_field (view value.now)) }
{
    Ok(TopField::Day(day_in(value)?))
}

fn path_field(alloc: Global, value: &Value) -> Result<TopField, TableFault>
    ensures { Gives (λ f. f) result (path_field (view value.now)) }
{
    let path = text_in(value)?.to_string(alloc)?;
    Ok(TopField::Path(PathText::new(path)))
}

fn tables_field(value: &Value) -> Result<TopField, TableFault>
    ensures { Says (λ f. f) result (tables_field (view value.now)) }
{
    tables_in(value)?;
    Ok(TopField::Tables)
}

// Reads the top table.
#[derive(Clone, Copy)]
struct TopReader {
    alloc: Global,
}

impl Places for TopReader {
    ghost use Rattle.std.specs.Prelude.{Ok};
    ghost use Rattle.market_tables.specs.Presence.{must_stand};
    ghost use Rattle.market_file.specs.Top.{top_field};

    type Presence = Presence;

    type Place = TopPlace;

    type Field = TopField;

    ghost required = { λ _ presence _. Ok (must_stand presence) };

    ghost gives = { λ _ place d. top_field place d };

    fn must_stand(&self, presence: Presence, _table: &Table) -> Result<bool, TableFault> {
        Ok(presence.must_stand())
    }

    fn field(&self, place: TopPlace, value: &Value) -> Result<TopField, TableFault> {
        match place {
            TopPlace::Version => version_field(value),
            TopPlace::Day => day_field(value),
            TopPlace::Path => path_field(self.alloc, value),
            TopPlace::Tables => tables_field(value),
        }
    }
}

// The fault of a field that is not there, or that another place gave.
const NO_FIELD: TableFault = TableFault::Kind(MarketKind::Key);

fn version_in(field: Option<TopField>) -> Result<Version, TableFault>
    ensures { Says (λ version. version) result (version_in field) }
{
    match &field {
        Some(TopField::Version(version)) => Ok(*version),
        Some(_) | None => Err(NO_FIELD),
    }
}

fn today_in(field: Option<TopField>) -> Result<Day, TableFault>
    ensures { Says (λ day. day) result (today_in field) }
{
    match &field {
        Some(TopField::Day(day)) => Ok(*day),
        Some(_) | None => Err(NO_FIELD),
    }
}

fn path_in(field: Option<TopField>) -> Result<Option<PathText>, TableFault>
    ensures { Says (λ path. path) result (path_in field) }
{
    match field {
        Some(TopField::Path(path)) => Ok(Some(path)),
        Some(_) => Err(NO_FIELD),
        None => Ok(None),
    }
}

// What the fields of a top table say.
#[tactic(auto, using(market_tables::proofs::FieldPlaces::other))]
fn top_made(fields: Vec<Option<TopField>>) -> Result<TopTable, TableFault>
    ensures { Says (λ top. top) result (top_made fields.items) }
{
    let mut fields = fields;
    let version = version_in(take_field(&mut fields, 0))?;
    let today = today_in(take_field(&mut fields, 1))?;
    let quotes = path_in(take_field(&mut fields, 2))?;
    let fixings = path_in(take_field(&mut fields, 3))?;
    Ok(TopTable {
        version,
        today,
        quotes,
        fixings,
    })
}

/// What a top table says, or its first fault.
pub(crate) fn read_top(alloc: Global, table: &Table) -> Result<TopTable, TableFault>
    ensures { Gives (λ top. top) result (top_of (table_view table.now)) }
{
    let fields = row_of(alloc, &TopReader { alloc }, top_keys(), table)?;
    top_made(fields)
}
