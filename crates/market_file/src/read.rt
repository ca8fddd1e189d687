// A market from its files.
ghost use Rattle.std.specs.Prelude.{◌≡◌, Option, Ok, option_map, codes, IfOk, OnErr};
ghost use Rattle.std.specs.List.{All};
ghost use Rattle.toml.specs.View.{view, table_view, items_view};
ghost use Rattle.market_tables.specs.Given.{Gives};
ghost use Rattle.market_calendars.specs.Reader.{calendars_in};
ghost use Rattle.market_file.specs.Fault.{Answers, States, Refuses, at_entry, in_section};
ghost use Rattle.market_file.specs.FirstFault.{ToldFirst};
ghost use Rattle.market_file.specs.Document.{document_of};
ghost use Rattle.market_file.specs.Top.{top_of};
ghost use Rattle.market_file.specs.Market.{items_of, tables_at, sized, table_sized, quotes_onto, objects_onto, fixings_onto, objects_of, board_of, read_market};
ghost use Rattle.desk_terms.specs.Reading.{AreInRange};
ghost use Rattle.market_file.specs.Standing.{IsReady, AreLimited};
ghost use Rattle.market_file.specs.declared.fault.Section.TheVariants as section;
ghost use Rattle.market_objects.specs.Board.{started};

use crate::document::read_document;
use crate::fault::{MarketFault, Section, fault_at, fault_in};
use crate::top::{TopTable, read_top};
use day_number::Day;
use desk_names::Names;
use market_calendars::{Calendars, read_calendars};
use market_fields::Version;
use market_objects::{Board, MadeList, read_fixings, read_objects, read_quotes};
use market_tables::{MarketKind, value_at};
use std::alloc::Global;
use text_limits::MOST_BYTES;
use toml::{Table, Value};

/// A market: the evaluation date, and the objects in order of creation, each with its name and its terms. The first
/// object has the number 1, since `today` has 0.
#[derive(Drop)]
pub struct Market {
    pub today: Day,
    pub made: MadeList,
}

// The items of an array, or none.
fn items_of(value: Option<&Value>) -> &[Value]
    ensures { items_view result.now ≡ items_of (option_map (λ v. view v.now) value.entry) }
{
    match value {
        Some(value) => match value.as_array() {
            Some(items) => items.as_slice(),
            None => &[],
        },
        None => &[],
    }
}

// The tables at a key of the top table, or none.
fn tables_at<'a>(table: &'a Table, word: &str) -> &'a [Value]
    ensures { items_view result.now ≡ tables_at word.now (table_view table.now) }
{
    items_of(value_at(table, word))
}

// Refuses a file of a section that is too long.
fn sized(section: Section, file: &[u8]) -> Result<(), MarketFault>
    ensures { States (λ _. file.now) result (sized section file.now) }
{
    if file.len() > MOST_BYTES {
        return Err(MarketFault::At {
            section,
            entry: 0,
            kind: MarketKind::TooLong,
        });
    }
    Ok(())
}

fn document(alloc: Global, text: &[u8]) -> Result<Table, MarketFault>
    ensures { Answers table_view result (at_entry section.Top 0 (document_of text.now)) }
{
    match read_document(alloc, text) {
        Ok(table) => Ok(table),
        Err(fault) => Err(fault_at(Section::Top, 0, fault)),
    }
}

fn top_of(alloc: Global, table: &Table) -> Result<TopTable, MarketFault>
    ensures { Answers (λ top. top) result (at_entry section.Top 0 (top_of (table_view table.now))) }
{
    match read_top(alloc, table) {
        Ok(top) => Ok(top),
        Err(fault) => Err(fault_at(Section::Top, 0, fault)),
    }
}

fn calendars_of(alloc: Global, table: &Table) -> Result<Calendars, MarketFault>
    ensures { Answers (λ calendars. calendars) result (in_section section.Calendars (calendars_in (tables_at (codes "calendar") (table_view table.now)))) }
{
    match read_calendars(alloc, tables_at(table, "calendar")) {
        Ok(calendars) => Ok(calendars),
        Err(fault) => Err(fault_in(Section::Calendars, fault)),
    }
}

fn start(alloc: Global, version: Version, calendars: Calendars) -> Result<Board, MarketFault>
    ensures { Answers (λ board. board) result (Ok (started version calendars)) }
{
    match Board::start(alloc, version, calendars) {
        Ok(board) => Ok(board),
        Err(fault) => Err(fault_at(Section::Top, 0, fault)),
    }
}

fn quotes_onto(
    alloc: Global,
    named: bool,
    quotes: &[u8],
    board: Board,
) -> Result<Board, MarketFault>
    ensures { Answers (λ more. more) result (quotes_onto named quotes.now board) }
{
    if !named {
        return Ok(board);
    }
    match read_quotes(alloc, board, quotes) {
        Ok(board) => Ok(board),
        Err(fault) => Err(fault_in(Section::Quotes, fault)),
    }
}

fn objects_onto(table: &Table, board: Board) -> Result<Board, MarketFault>
    ensures { Answers (λ more. more) result (objects_onto (table_view table.now) board) }
{
    match read_objects(board, tables_at(table, "object")) {
        Ok(board) => Ok(board),
        Err(fault) => Err(fault_in(Section::Objects, fault)),
    }
}

fn fixings_onto(
    alloc: Global,
    named: bool,
    fixings: &[u8],
    board: Board,
) -> Result<Board, MarketFault>
    ensures { Answers (λ more. more) result (fixings_onto named fixings.now board) }
{
    if !named {
        return Ok(board);
    }
    match read_fixings(alloc, board, fixings) {
        Ok(board) => Ok(board),
        Err(fault) => Err(fault_in(Section::Fixings, fault)),
    }
}

// Refuses a table beside the market that is named and too long.
fn table_sized(section: Section, named: bool, file: &[u8]) -> Result<(), MarketFault>
    ensures { States (λ _. file.now) result (table_sized section named file.now) }
{
    if named {
        return sized(section, file);
    }
    Ok(())
}

// The objects of a market's sections, in reading order.
fn objects_of(
    alloc: Global,
    table: &Table,
    top: &TopTable,
    quotes: &[u8],
    fixings: &[u8],
) -> Result<Board, MarketFault>
    ensures { Answers (λ board. board) result (objects_of (table_view table.now) top.now quotes.now fixings.now) }
{
    let has_quotes = top.quotes.is_some();
    let has_fixings = top.fixings.is_some();
    table_sized(Section::Quotes, has_quotes, quotes)?;
    table_sized(Section::Fixings, has_fixings, fixings)?;
    let calendars = calendars_of(alloc, table)?;
    let board = start(alloc, top.version, calendars)?;
    let with_quotes = quotes_onto(alloc, has_quotes, quotes, board)?;
    let with_objects = objects_onto(table, with_quotes)?;
    fixings_onto(alloc, has_fixings, fixings, with_objects)
}

// The evaluation date and the objects of a market.
fn board_of(
    alloc: Global,
    text: &[u8],
    quotes: &[u8],
    fixings: &[u8],
) -> Result<(Day, Board), MarketFault>
    ensures board { Answers (λ m. (m.0, m.1)) result (board_of text.now quotes.now fixings.now) }
    ensures long { Refuses result (sized section.Top text.now) }
{
    sized(Section::Top, text)?;
    let table = document(alloc, text)?;
    let top = top_of(alloc, &table)?;
    let board = objects_of(alloc, &table, &top, quotes, fixings)?;
    Ok((top.today, board))
}

/// The market of a text and of the tables that it names, or its first fault; a table that it does not name is not read.
/// A text that is too long is refused whatever the memory.
/// `names` becomes the names of the market's objects, `today` first, and stays as it was where the market is refused;
/// the names of calendars are not among them. The terms of curves, indexes and instruments and the parts of composites are
/// within their limits, and each object rests on objects before it that are of the kinds that it wants.
pub fn read_market(
    alloc: Global,
    text: &[u8],
    quotes: &[u8],
    fixings: &[u8],
    names: &mut Names,
) -> Result<Market, MarketFault>
    ensures market { Answers (λ market. record { today = market.today; made = market.made.items; names = names.new })
        result (read_market text.now quotes.now fixings.now) }
    ensures first { ToldFirst text.now quotes.now fixings.now result }
    ensures long { Refuses result (sized section.Top text.now) }
    ensures ready { IfOk result (λ market. IsReady names.new market.made.items) }
    ensures ranged { IfOk result (λ market. All (λ entry. AreInRange entry.1) market.made.items) }
    ensures limited { IfOk result (λ market. All (λ entry. AreLimited entry.1) market.made.items) }
    ensures err { OnErr result (names.new ≡ names.old) }
{
    let (today, board) = board_of(alloc, text, quotes, fixings)?;
    let (found, made) = board.into_parts();
    *names = found;
    Ok(Market { today, made })
}
