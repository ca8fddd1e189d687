// The records of a text, taken one by one.
ghost use Rattle.std.specs.Prelude.{◌≡◌};
ghost use Rattle.csv.specs.Reading.{default_config, strip_bom, records};
ghost use Rattle.csv.specs.Records.{fields_of};
ghost use Rattle.market_tables.specs.Entries.{GivesAt};
ghost use Rattle.market_records.specs.Records.{record_step, behind_records, RefusesAt};

use csv::{ByteRecord, ReaderBuilder};
use market_tables::{EntryFault, MarketKind, TableFault, fault_at, next_entry};
use std::alloc::Global;

/// What is made of the records of a table, one by one.
pub trait TakesRecords {
    ghost use Rattle.std.specs.Prelude.{◌≡◌, ℕ, Bool, List, Result};
    ghost use Rattle.csv.specs.Records.{fields_of};
    ghost use Rattle.market_tables.specs.declared.fault.MarketKind.{MarketKind};
    ghost use Rattle.market_tables.specs.Given.{Gives};
    ghost use Rattle.market_tables.specs.Refusals.{Refuses};

    /// Whether a record is the stated first one.
    ghost header: { List (List ℕ) → Bool };

    /// What stands behind a record after the first, or the record's first fault.
    ghost behind: { Self → List (List ℕ) → Result Self MarketKind };

    /// Whether a record is the stated first one.
    fn is_header(row: &ByteRecord) -> bool
        ensures { result ≡ header (fields_of row.now) };

    /// Makes what a record after the first says, or tells its first fault, whatever the memory.
    fn take(&mut self, row: &ByteRecord) -> Result<(), TableFault>
        ensures made { Gives (λ _. self.new) result (behind self.old (fields_of row.now)) }
        ensures told { Refuses result (behind self.old (fields_of row.now)) };
}

// Takes the record with this number: the first, number 0, must be the stated one. A record that is refused is refused
// whatever the memory.
fn take_record<T: TakesRecords>(
    taker: &mut T,
    number: u32,
    row: &ByteRecord,
) -> Result<(), EntryFault>
    ensures made { GivesAt (λ _. taker.new) result (record_step T.header T.behind taker.old number (fields_of row.now)) }
    ensures told { RefusesAt result (record_step T.header T.behind taker.old number (fields_of row.now)) }
{
    if number == 0 {
        if T::is_header(row) {
            return Ok(());
        }
        return Err(EntryFault::At {
            entry: 0,
            kind: MarketKind::Header,
        });
    }
    match taker.take(row) {
        Ok(()) => Ok(()),
        Err(fault) => Err(fault_at(number, fault)),
    }
}

/// Makes what the records of a text say, read by the default dialect of CSV, up to the first fault. A text whose first
/// record is not the stated one, or that has none, is refused with `Header` and entry 0.
pub fn take_records<T: TakesRecords>(
    alloc: Global,
    text: &[u8],
    taker: &mut T,
) -> Result<(), EntryFault>
    ensures { GivesAt (λ _. taker.new) result (behind_records T.header T.behind taker.old 0 (records default_config (strip_bom text.now))) }
{
    let rdr = ReaderBuilder::new()
        .has_headers(false)
        .flexible(true)
        .from_reader(alloc, text);
    let mut number = 0;
    for row in rdr.into_byte_records() {
        match row {
            Ok(row) => match take_record(taker, number, &row) {
                Ok(()) => number = next_entry(number),
                Err(fault) => return Err(fault),
            },
            Err(_) => return Err(EntryFault::NoMemory),
        }
    }
    if number == 0 {
        return Err(EntryFault::At {
            entry: 0,
            kind: MarketKind::Header,
        });
    }
    Ok(())
}
