// The tables of a section in order, and the faults of its entries with their numbers.
ghost use Rattle.std.specs.Prelude.{◌≡◌};
ghost use Rattle.toml.specs.View.{items_view};
ghost use Rattle.market_tables.specs.Entries.{GivesAt, entries_from, fault_at, next_entry};

use crate::{MarketKind, TableFault};
use thiserror::Error;
use toml::Value;

/// Why the entries of a section are not read: the first fault, with the number of its entry, or out of memory.
#[derive(Clone, Copy, Debug, Error, PartialEq, Eq)]
pub enum EntryFault {
    #[error("{entry} {kind}")]
    At { entry: u32, kind: MarketKind },
    #[error("out of memory")]
    NoMemory,
}

/// Returns a table's fault with the number of its entry.
pub fn fault_at(entry: u32, fault: TableFault) -> EntryFault
    ensures { result ≡ fault_at entry fault }
{
    match fault {
        TableFault::Kind(kind) => EntryFault::At { entry, kind },
        TableFault::NoMemory => EntryFault::NoMemory,
    }
}

/// Returns the number of the next entry. It stays at 2^32 - 1, which no file reaches.
pub fn next_entry(entry: u32) -> u32
    ensures { result ≡ next_entry entry }
{
    entry.saturating_add(1)
}

/// Takes the tables of a section, one by one.
pub trait TakesTables {
    ghost use Rattle.std.specs.Prelude.{◌≡◌, Result};
    ghost use Rattle.toml.specs.Data.{Data};
    ghost use Rattle.toml.specs.View.{view};
    ghost use Rattle.market_tables.specs.declared.fault.MarketKind.{MarketKind};
    ghost use Rattle.market_tables.specs.Given.{Gives};

    /// The taker after a table, or the table's first fault.
    ghost behind: { Self → Data → Result Self MarketKind };

    /// Takes a table.
    ///
    /// # Errors
    ///
    /// Its first fault, or `NoMemory`.
    fn take(&mut self, value: &Value) -> Result<(), TableFault>
        ensures { Gives (λ _. self.new) result (behind self.old (view value.now)) };
}

/// Takes the tables of a section. The first is entry 1.
///
/// # Errors
///
/// The first fault with the number of its entry, or `NoMemory`.
pub fn take_tables<T: TakesTables>(taker: &mut T, items: &[Value]) -> Result<(), EntryFault>
    ensures { GivesAt (λ _. taker.new) result (entries_from T.behind taker.old 1 (items_view items.now)) }
{
    let mut number = 1;
    for item in items {
        match taker.take(item) {
            Ok(()) => number = next_entry(number),
            Err(fault) => return Err(fault_at(number, fault)),
        }
    }
    Ok(())
}
