// Why a file, or a market with its tables, was not read.
ghost use Rattle.std.specs.Prelude.{◌≡◌};
ghost use Rattle.market_loader.specs.Faults.{too_long_of, role_fault, load_fault, file_fault};

use desk_edge::ReadFault;
use market_file::{MarketFault, MarketKind, Section};
use std::fmt;
use thiserror::Error;

/// Why a file was not read whole.
#[derive(Clone, Copy, Debug, Error, PartialEq, Eq)]
pub enum FileFault {
    /// There is no such file.
    #[error("no file")]
    Absent,
    /// It has more than `text_limits::MOST_BYTES` bytes.
    #[error("the file is too long")]
    TooLong,
    /// A call of the shelf failed.
    #[error("the read failed")]
    Read,
    #[error("out of memory")]
    NoMemory,
}

/// A file of a market, in reading order.
#[derive(Clone, Copy, Debug, PartialEq, Eq)]
pub enum MarketRole {
    Market,
    /// The table of quotes that the market names.
    Quotes,
    /// The table of fixings that the market names.
    Fixings,
}

/// Why a market was not read: the first failure in reading order.
#[derive(Clone, Copy, Debug, Error, PartialEq, Eq)]
pub enum LoadFault {
    /// The market is refused: where, at which entry, and why.
    #[error("the market is refused")]
    Fault {
        section: Section,
        entry: u32,
        kind: MarketKind,
    },
    /// A file could not be read.
    #[error("the read failed")]
    Read,
    /// There is no such file.
    #[error("no file")]
    Absent(MarketRole),
    #[error("out of memory")]
    NoMemory,
}

// A file of a market prints as its word.
impl fmt::Display for MarketRole {
    ghost use Rattle.std.specs.Prelude.{Some};
    ghost use Rattle.market_loader.specs.Faults.{role_text};

    ghost output = { λ r. Some (role_text r) };

    fn fmt<W: fmt::Write>(&self, f: &mut fmt::Formatter<W>) -> fmt::Result {
        match self {
            MarketRole::Market => write!(f, "market"),
            MarketRole::Quotes => write!(f, "quotes"),
            MarketRole::Fixings => write!(f, "fixings"),
        }
    }
}

// The fault of a read.
pub(crate) fn file_fault(fault: ReadFault) -> FileFault
    ensures { result ≡ file_fault fault }
{
    match fault {
        ReadFault::Failed => FileFault::Read,
        ReadFault::TooLong => FileFault::TooLong,
        ReadFault::NoMemory => FileFault::NoMemory,
    }
}

// The fault of a market's file.
pub(crate) fn role_fault(role: MarketRole, fault: FileFault) -> LoadFault
    ensures { result ≡ role_fault role fault }
{
    match fault {
        FileFault::Absent => LoadFault::Absent(role),
        FileFault::TooLong => too_long(role),
        FileFault::Read => LoadFault::Read,
        FileFault::NoMemory => LoadFault::NoMemory,
    }
}

// The fault of a market's file that is longer than the most bytes.
fn too_long(role: MarketRole) -> LoadFault
    ensures { result ≡ too_long_of role }
{
    let section = match role {
        MarketRole::Market => Section::Top,
        MarketRole::Quotes => Section::Quotes,
        MarketRole::Fixings => Section::Fixings,
    };
    LoadFault::Fault {
        section,
        entry: 0,
        kind: MarketKind::TooLong,
    }
}

// The fault of a market's texts.
pub(crate) fn load_fault(fault: MarketFault) -> LoadFault
    ensures { result ≡ load_fault fault }
{
    match fault {
        MarketFault::At {
            section,
            entry,
            kind,
        } => LoadFault::Fault {
            section,
            entry,
            kind,
        },
        MarketFault::NoMemory => LoadFault::NoMemory,
    }
}
