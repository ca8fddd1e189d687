// The tables of objects.
ghost use Rattle.std.specs.Prelude.{◌≡◌, map, IfOk};
ghost use Rattle.toml.specs.View.{view, items_view};
ghost use Rattle.market_tables.specs.Given.{Gives};
ghost use Rattle.market_tables.specs.Entries.{GivesAt, entries_from};
ghost use Rattle.market_tables.specs.Table.{listed};
ghost use Rattle.market_fields.specs.Earlier.{seen};
ghost use Rattle.market_fields.specs.Keys.{keys_of, kind_of};
ghost use Rattle.market_objects.specs.Board.{HasFlowsInRange};
ghost use Rattle.market_objects.specs.Reader.{entry_in, behind};

use crate::Board;
use crate::making::entry_made;
use desk_terms::Terms;
use market_fields::{Earlier, Field, KeyPresence, ObjectKind, ObjectPlace, place_field};
use market_tables::{
    EntryFault, Key, Kinds, NameText, Places, TableFault, TakesTables, entry_of, table_in,
    take_tables,
};
use std::alloc::Global;
use toml::{Table, Value};

// Reads the tables of objects.
#[derive(Clone, Copy)]
struct ObjectReader<'a> {
    alloc: Global,
    earlier: Earlier<'a>,
}

impl<'a> Places for ObjectReader<'a> {
    ghost use Rattle.market_fields.specs.Earlier.{seen};
    ghost use Rattle.market_fields.specs.Presence as presences;
    ghost use Rattle.market_fields.specs.Helpers as places;

    type Presence = KeyPresence;

    type Place = ObjectPlace;

    type Field = Field;

    ghost required = { λ _ presence table. presences.required presence table };

    ghost gives = { λ r place d. places.place_field (seen r.earlier) place d };

    fn must_stand(&self, presence: KeyPresence, table: &Table) -> Result<bool, TableFault> {
        presence.required(table)
    }

    fn field(&self, place: ObjectPlace, value: &Value) -> Result<Field, TableFault> {
        place_field(self.alloc, self.earlier, place, value)
    }
}

impl<'a> Kinds for ObjectReader<'a> {
    ghost use Rattle.market_fields.specs.Keys as keys;

    type Kind = ObjectKind;

    ghost kind_of = { keys.kind_of };

    ghost keys_of = { keys.keys_of };

    fn kind(word: &str) -> Option<ObjectKind>
        ensures { result ≡ kind_of word.now }
    {
        ObjectKind::of_word(word)
    }

    fn keys(kind: ObjectKind) -> &'static [Key<KeyPresence, ObjectPlace>]
        ensures { map listed result.now ≡ keys_of kind }
    {
        kind.keys()
    }
}

// Returns the name and the terms of the object of a table.
fn entry_in(
    alloc: Global,
    earlier: Earlier<'_>,
    value: &Value,
) -> Result<(NameText, Terms), TableFault>
    ensures entry { Gives (λ entry. (entry.0, entry.1)) result (entry_in (seen earlier.entry) (view value.now)) }
    ensures range { IfOk result (λ entry. HasFlowsInRange entry.1) }
{
    let reader = ObjectReader { alloc, earlier };
    let table = table_in(value)?;
    earlier.version.test(table)?;
    let (kind, fields) = entry_of(alloc, &reader, table)?;
    entry_made(alloc, earlier, kind, fields)
}

impl TakesTables for Board {
    ghost use Rattle.market_objects.specs.Reader.{behind};

    ghost behind = { behind };

    fn take(&mut self, value: &Value) -> Result<(), TableFault> {
        let (name, terms) = entry_in(self.alloc(), self.earlier(), value)?;
        self.add(name.text(), terms)
    }
}

/// Reads tables of objects into a board.
///
/// # Errors
///
/// The first fault with the number of its table, from 1, or `NoMemory`.
pub fn read_objects(board: Board, items: &[Value]) -> Result<Board, EntryFault>
    ensures { GivesAt (λ more. more) result (entries_from behind board 1 (items_view items.now)) }
{
    let mut board = board;
    match take_tables(&mut board, items) {
        Ok(()) => Ok(board),
        Err(fault) => Err(fault),
    }
}
