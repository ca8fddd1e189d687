// The faults of a market.
ghost use Rattle.std.specs.Prelude.{◌≡◌};
ghost use Rattle.market_tables.specs.MarketKind.{kind_text};

use std::alloc::{AllocError, AllocFailed};
use std::fmt;
use thiserror::Error;

/// The fault of an entry of a market: that of the first step that fails, and within one key the first of these. (This project's
/// profile.)
#[derive(Clone, Copy, Debug, PartialEq, Eq)]
pub enum MarketKind {
    /// A file of the section has more than 8,388,608 bytes.
    TooLong,
    /// The text is no TOML, or no UTF-8.
    Toml,
    /// A key is missing, is not listed for its kind of table, or has a value of another TOML type.
    Key,
    /// A text in the place of a name is no name.
    Name,
    /// The new name is taken in its list, or is `today`.
    Taken,
    /// A name names nothing earlier.
    Unknown,
    /// The named object is of a kind that the key does not take.
    Kind,
    /// A decimal, an integer or a tenor has a wrong form or is beyond its limit.
    Number,
    /// A text in the place of a day is no day in range.
    Date,
    /// A word is none of the choices.
    Choice,
    /// All seven weekdays are holidays.
    Weekend,
    /// A list has too few or too many parts, or names a member twice.
    Parts,
    /// The schedule is refused.
    Plan,
    /// A payment or fixing day of a leg is out of range.
    Range,
    /// An instrument has too many flows.
    Flows,
    /// The day has a fixing already.
    Exists,
    /// The first record is not the required header.
    Header,
    /// A record has more or fewer fields than the header.
    Record,
    /// The market has more than 4,096 objects.
    Limit,
}

impl MarketKind {
    // Returns the word that it prints as.
    fn word(self) -> &'static str
        ensures { result.now ≡ kind_text self }
    {
        match self {
            MarketKind::TooLong => "toolong",
            MarketKind::Toml => "toml",
            MarketKind::Key => "key",
            MarketKind::Name => "name",
            MarketKind::Taken => "taken",
            MarketKind::Unknown => "unknown",
            MarketKind::Kind => "kind",
            MarketKind::Number => "number",
            MarketKind::Date => "date",
            MarketKind::Choice => "choice",
            MarketKind::Weekend => "weekend",
            MarketKind::Parts => "parts",
            MarketKind::Plan => "plan",
            MarketKind::Range => "range",
            MarketKind::Flows => "flows",
            MarketKind::Exists => "exists",
            MarketKind::Header => "header",
            MarketKind::Record => "record",
            MarketKind::Limit => "limit",
        }
    }
}

// A fault prints as its word.
impl fmt::Display for MarketKind {
    ghost use Rattle.std.specs.Prelude.{Some};
    ghost use Rattle.market_tables.specs.MarketKind.{kind_text};

    ghost output = { λ k. Some (kind_text k) };

    fn fmt<W: fmt::Write>(&self, f: &mut fmt::Formatter<W>) -> fmt::Result {
        f.write_str(self.word())
    }
}

/// Why one table or one record is not read: its first fault, or out of memory.
#[derive(Clone, Copy, Debug, Error, PartialEq, Eq)]
pub enum TableFault {
    #[error("{0}")]
    Kind(MarketKind),
    #[error("out of memory")]
    NoMemory,
}

impl From<AllocError> for TableFault {
    ghost use Rattle.market_tables.specs.declared.fault.TableFault.TheVariants.{NoMemory};

    ghost from_gives = { λ _ e. e ≡ NoMemory };

    fn from(_e: AllocError) -> TableFault {
        TableFault::NoMemory
    }
}

impl<T: Drop> From<AllocFailed<T>> for TableFault {
    ghost use Rattle.market_tables.specs.declared.fault.TableFault.TheVariants.{NoMemory};

    ghost from_gives = { λ _ e. e ≡ NoMemory };

    fn from(_e: AllocFailed<T>) -> TableFault {
        TableFault::NoMemory
    }
}
