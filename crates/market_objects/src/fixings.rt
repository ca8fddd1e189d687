// The fixings of a market, record by record.
ghost use Rattle.std.specs.Prelude.{◌≡◌, false, slice_get};
ghost use Rattle.csv.specs.Records.{fields_of};
ghost use Rattle.csv.specs.Reading.{default_config, strip_bom, records};
ghost use Rattle.market_tables.specs.Given.{Gives, Says};
ghost use Rattle.market_tables.specs.Refusals.{Refuses};
ghost use Rattle.market_tables.specs.Entries.{GivesAt};
ghost use Rattle.market_tables.specs.Values.{day_of};
ghost use Rattle.market_records.specs.Records.{behind_records};
ghost use Rattle.flow_terms.specs.Fixings.{fixing_on, IsRate};
ghost use Rattle.market_objects.specs.Board.{HasFlowsInRange, HaveFlowsInRange};
ghost use Rattle.market_objects.specs.Fixings.{is_header, stored, fixed, fixed_in, behind};

use crate::Board;
use csv::ByteRecord;
use day_number::{Day, read_day};
use desk_names::NameId;
use desk_terms::{Fixings, Terms, Wanted};
use fixed_amount::Rate;
use market_fields::{TermRate, served};
use market_records::{TakesRecords, field, take_records};
use market_tables::{EntryFault, MarketKind, TableFault};
use std::alloc::Global;
use std::marker::Model;

// Returns whether the record is `index,day,rate`.
fn is_header(row: &ByteRecord) -> bool
    ensures { result ≡ is_header (fields_of row.now) }
{
    row.len() == 3
        && field(row, 0) == b"index".as_slice()
        && field(row, 1) == b"day".as_slice()
        && field(row, 2) == b"rate".as_slice()
}

// Returns the day of a text, or `Date`.
fn day_of(text: &[u8]) -> Result<Day, TableFault>
    ensures { Says (λ day. day) result (day_of text.now) }
{
    match read_day(text) {
        Some(day) => Ok(day),
        None => Err(TableFault::Kind(MarketKind::Date)),
    }
}

// Stores a rate, or returns `Exists` where the day has one.
fn store(fixings: &mut Fixings, day: Day, rate: Rate) -> Result<(), TableFault>
    requires { IsRate rate }
    ensures rates { Gives (λ _. fixings.new) result (stored fixings.old day rate (fixing_on fixings.old day)) }
    ensures told { Refuses result (stored fixings.old day rate (fixing_on fixings.old day)) }
{
    if fixings.get(day).is_some() {
        return Err(TableFault::Kind(MarketKind::Exists));
    }
    match fixings.add(day, rate) {
        Ok(()) => Ok(()),
        // The day has no rate, so memory ran out.
        Err(_) => Err(TableFault::NoMemory),
    }
}

// Stores a rate for an index, or returns `Kind` where the terms are none of an index.
fn fix(terms: &mut Terms, day: Day, rate: Rate) -> Result<(), TableFault>
    requires { IsRate rate }
    ensures terms { Gives (λ _. terms.new) result (fixed terms.old day rate) }
    ensures told { Refuses result (fixed terms.old day rate) }
    ensures range { HasFlowsInRange terms.old → HasFlowsInRange terms.new }
{
    match terms {
        Terms::Index(_, fixings) => store(fixings, day, rate),
        Terms::Quote(_)
        | Terms::Derived { .. }
        | Terms::Handle { .. }
        | Terms::Curve(_)
        | Terms::Implied { .. }
        | Terms::Engine { .. }
        | Terms::Stock { .. }
        | Terms::Composite(_)
        | Terms::Flows(..) => Err(TableFault::Kind(MarketKind::Kind)),
    }
}

// Stores a rate for the index at a place among the objects.
pub(crate) fn fix_at(
    made: &mut Vec<(NameId, Terms)>,
    at: usize,
    day: Day,
    rate: Rate,
) -> Result<(), TableFault>
    requires { IsRate rate }
    ensures made { Gives (λ _. made.new.items) result (fixed_in made.old.items at day rate (slice_get made.old.items at)) }
    ensures told { Refuses result (fixed_in made.old.items at day rate (slice_get made.old.items at)) }
    ensures range { HaveFlowsInRange made.old.items → HaveFlowsInRange made.new.items }
{
    if at < made.len() {
        fix(&mut made[at].1, day, rate)
    } else {
        Err(TableFault::Kind(MarketKind::Kind))
    }
}

// Stores the fixing of a record. Its fields are checked in order, and then whether its day has a rate. A refusal takes no memory.
fn take_fixing(board: &mut Board, row: &ByteRecord) -> Result<(), TableFault>
    ensures board { Gives (λ _. board.new) result (behind board.old (fields_of row.now)) }
    ensures told { Refuses result (behind board.old (fields_of row.now)) }
{
    if row.len() != 3 {
        return Err(TableFault::Kind(MarketKind::Record));
    }
    let named = board.earlier().named_object(field(row, 0))?;
    let index = served(named, Wanted::Index)?;
    let day = day_of(field(row, 1))?;
    let rate = TermRate::read(field(row, 2))?;
    board.fix(index, day, rate.rate())
}

// A board that takes records of fixings.
#[derive(Drop)]
struct FixingTaker {
    board: Board,
}

impl Model for FixingTaker {
    ghost use Rattle.market_fields.specs.Earlier.{Earlier};

    ghost Value = { Earlier };

    ghost view = { λ t. t.board };
}

impl TakesRecords for FixingTaker {
    ghost use Rattle.market_objects.specs.Fixings.{is_header, behind};

    ghost header = { is_header };

    ghost behind = { behind };

    fn is_header(row: &ByteRecord) -> bool {
        is_header(row)
    }

    fn take(&mut self, row: &ByteRecord) -> Result<(), TableFault> {
        take_fixing(&mut self.board, row)
    }
}

/// Reads a file of fixings into a board.
///
/// # Errors
///
/// The first fault with the number of its record, or `NoMemory`.
pub fn read_fixings(alloc: Global, board: Board, text: &[u8]) -> Result<Board, EntryFault>
    ensures { GivesAt (λ more. more) result (behind_records is_header behind board 0 (records default_config (strip_bom text.now))) }
{
    let mut taker = FixingTaker { board };
    match take_records(alloc, text, &mut taker) {
        Ok(()) => Ok(taker.board),
        Err(fault) => Err(fault),
    }
}
