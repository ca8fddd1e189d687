// The tables in an object's table: the parts of a composite.
ghost use Rattle.std.specs.Prelude.{◌≡◌, Option};
ghost use Rattle.toml.specs.View.{view};
ghost use Rattle.market_tables.specs.Given.{Gives, Says};
ghost use Rattle.market_fields.specs.Earlier.{seen};
ghost use Rattle.market_fields.specs.Parts.{part_made, parts_field};

use crate::field::{needed_object, needed_weight};
use crate::keys::{ObjectPlace, part_keys};
use crate::places::plain_field;
use crate::{Earlier, Field};
use desk_terms::Part;
use market_tables::{Element, Places, Presence, TableFault, each, row_of, table_in, tables_in};
use std::alloc::Global;
use toml::{Table, Value};

// Reads the keys of tables in an object's table.
#[derive(Clone, Copy)]
pub(crate) struct RowReader<'a> {
    pub(crate) alloc: Global,
    pub(crate) earlier: Earlier<'a>,
}

impl<'a> Places for RowReader<'a> {
    ghost use Rattle.std.specs.Prelude.{Ok};
    ghost use Rattle.market_tables.specs.Presence.{must_stand};
    ghost use Rattle.market_fields.specs.Earlier.{seen};
    ghost use Rattle.market_fields.specs.Places.{plain_field};

    type Presence = Presence;

    type Place = ObjectPlace;

    type Field = Field;

    ghost required = { λ _ presence _. Ok (must_stand presence) };

    ghost gives = { λ r place d. plain_field (seen r.earlier) place d };

    fn must_stand(&self, presence: Presence, _table: &Table) -> Result<bool, TableFault> {
        Ok(presence.must_stand())
    }

    fn field(&self, place: ObjectPlace, value: &Value) -> Result<Field, TableFault> {
        plain_field(self.alloc, self.earlier, place, value)
    }
}

// Reads the tables of parts.
#[derive(Clone, Copy)]
struct PartElement<'a> {
    row: RowReader<'a>,
}

// Returns a part from its fields.
fn part_made(fields: &[Option<Field>]) -> Result<Part, TableFault>
    ensures { Says (λ part. part) result (part_made fields.now) }
{
    let member = needed_object(fields, 0)?;
    let weight = needed_weight(fields, 1)?;
    Ok(Part { weight, member })
}

impl<'a> Element for PartElement<'a> {
    ghost use Rattle.market_fields.specs.Earlier.{seen};
    ghost use Rattle.market_fields.specs.Parts.{part_in};

    type Made = Part;

    ghost made = { λ r. part_in (seen r.row.earlier) };

    fn element(&self, value: &Value) -> Result<Part, TableFault> {
        let fields = row_of(self.row.alloc, &self.row, part_keys(), table_in(value)?)?;
        part_made(&fields)
    }
}

// Returns the parts in an array of tables.
pub(crate) fn parts_field(
    alloc: Global,
    earlier: Earlier<'_>,
    value: &Value,
) -> Result<Field, TableFault>
    ensures { Gives (λ f. f) result (parts_field (seen earlier.entry) (view value.now)) }
{
    let items = tables_in(value)?;
    let row = RowReader { alloc, earlier };
    Ok(Field::Parts(each(alloc, &PartElement { row }, items)?))
}
