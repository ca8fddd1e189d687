// The quotes of a market, record by record.
ghost use Rattle.std.specs.Prelude.{◌≡◌, false};
ghost use Rattle.csv.specs.Records.{fields_of};
ghost use Rattle.csv.specs.Reading.{default_config, strip_bom, records};
ghost use Rattle.market_tables.specs.Given.{Gives, Says};
ghost use Rattle.market_tables.specs.Refusals.{Refuses};
ghost use Rattle.market_tables.specs.Entries.{GivesAt};
ghost use Rattle.market_records.specs.Records.{behind_records};
ghost use Rattle.market_objects.specs.Quotes.{is_header, value_of, behind};

use crate::Board;
use csv::ByteRecord;
use desk_terms::Terms;
use fixed_amount::Rate;
use market_records::{TakesRecords, field, take_records};
use market_tables::{EntryFault, MarketKind, TableFault, decimal_of};
use std::alloc::Global;
use std::marker::Model;

/// The greatest size of a quote's value, in units of 10^-9.
const MOST_VALUE: u64 = 1_000_000_000_000_000_000;

// Returns whether the record is `name,value`.
fn is_header(row: &ByteRecord) -> bool
    ensures { result ≡ is_header (fields_of row.now) }
{
    row.len() == 2 && field(row, 0) == b"name".as_slice() && field(row, 1) == b"value".as_slice()
}

// Returns a quote's value, or none where the field is empty.
fn value_of(text: &[u8]) -> Result<Option<Rate>, TableFault>
    ensures { Says (λ value. value) result (value_of text.now) }
{
    if text.is_empty() {
        return Ok(None);
    }
    let units = decimal_of(text, 9, MOST_VALUE)?;
    Ok(Some(Rate(units)))
}

// Makes the quote of a record. Its name is checked, which must be new, and then its value. A refusal takes no memory.
fn take_quote(board: &mut Board, row: &ByteRecord) -> Result<(), TableFault>
    ensures board { Gives (λ _. board.new) result (behind board.old (fields_of row.now)) }
    ensures told { Refuses result (behind board.old (fields_of row.now)) }
{
    if row.len() != 2 {
        return Err(TableFault::Kind(MarketKind::Record));
    }
    let name = field(row, 0);
    board.earlier().test_new(name)?;
    let value = value_of(field(row, 1))?;
    board.add(name, Terms::Quote(value))
}

// A board that takes records of quotes.
#[derive(Drop)]
struct QuoteTaker {
    board: Board,
}

impl Model for QuoteTaker {
    ghost use Rattle.market_fields.specs.Earlier.{Earlier};

    ghost Value = { Earlier };

    ghost view = { λ t. t.board };
}

impl TakesRecords for QuoteTaker {
    ghost use Rattle.market_objects.specs.Quotes.{is_header, behind};

    ghost header = { is_header };

    ghost behind = { behind };

    fn is_header(row: &ByteRecord) -> bool {
        is_header(row)
    }

    fn take(&mut self, row: &ByteRecord) -> Result<(), TableFault> {
        take_quote(&mut self.board, row)
    }
}

/// Reads a file of quotes into a board.
///
/// # Errors
///
/// The first fault with the number of its record, or `NoMemory`.
pub fn read_quotes(alloc: Global, board: Board, text: &[u8]) -> Result<Board, EntryFault>
    ensures { GivesAt (λ more. more) result (behind_records is_header behind board 0 (records default_config (strip_bom text.now))) }
{
    let mut taker = QuoteTaker { board };
    match take_records(alloc, text, &mut taker) {
        Ok(()) => Ok(taker.board),
        Err(fault) => Err(fault),
    }
}
