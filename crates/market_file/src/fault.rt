// Why a market is refused.
ghost use Rattle.std.specs.Prelude.{◌≡◌};
ghost use Rattle.market_file.specs.Fault.{fault_at, fault_in, section_text};

use market_tables::{EntryFault, MarketKind, TableFault};
use std::fmt;
use thiserror::Error;

/// A part of a market, in the order in which they are read.
#[derive(Clone, Copy, Debug, PartialEq, Eq)]
pub enum Section {
    /// The top table of the market.
    Top,
    Calendars,
    Quotes,
    Objects,
    Fixings,
}

impl Section {
    // The word that it prints as.
    fn word(self) -> &'static str
        ensures { result.now ≡ section_text self }
    {
        match self {
            Section::Top => "top",
            Section::Calendars => "calendars",
            Section::Quotes => "quotes",
            Section::Objects => "objects",
            Section::Fixings => "fixings",
        }
    }
}

// A section prints as its word.
impl fmt::Display for Section {
    ghost use Rattle.std.specs.Prelude.{Some};
    ghost use Rattle.market_file.specs.Fault.{section_text};

    ghost output = { λ s. Some (section_text s) };

    fn fmt<W: fmt::Write>(&self, f: &mut fmt::Formatter<W>) -> fmt::Result {
        f.write_str(self.word())
    }
}

/// Why a market is refused: its first fault, or want of memory. The entry is 0 for the top table and for a file as a
/// whole, and else the number of the table or of the record in its section, counted from 1, a header being record 0.
#[derive(Clone, Copy, Debug, Error, PartialEq, Eq)]
pub enum MarketFault {
    #[error("{section} {entry} {kind}")]
    At {
        section: Section,
        entry: u32,
        kind: MarketKind,
    },
    #[error("out of memory")]
    NoMemory,
}

/// A table's fault, with its section and its entry.
pub(crate) fn fault_at(section: Section, entry: u32, fault: TableFault) -> MarketFault
    ensures { result ≡ fault_at section entry fault }
{
    match fault {
        TableFault::Kind(kind) => MarketFault::At {
            section,
            entry,
            kind,
        },
        TableFault::NoMemory => MarketFault::NoMemory,
    }
}

/// The fault of an entry, with its section.
pub(crate) fn fault_in(section: Section, fault: EntryFault) -> MarketFault
    ensures { result ≡ fault_in section fault }
{
    match fault {
        EntryFault::At { entry, kind } => MarketFault::At {
            section,
            entry,
            kind,
        },
        EntryFault::NoMemory => MarketFault::NoMemory,
    }
}
