// How a run of a tool that reads a market ended.
use crate::{Ending, ToolStatus};
use market_file::{MarketKind, Section};
use market_loader::{LoadFault, MarketRole};
use std::alloc::AllocError;
use std::fmt;

/// How a run of a tool that reads only a market ended.
#[derive(Clone, Copy, PartialEq, Eq)]
pub enum MarketStatus {
    /// The text was written.
    Done,
    /// The words are not accepted.
    Usage,
    /// The market is refused: where, at which entry, and why.
    Market(Section, u32, MarketKind),
    /// A file could not be read.
    ReadFault,
    /// The output could not be written.
    WriteFault,
    /// Memory ran out.
    NoMemory,
    /// There is no such file.
    Absent(MarketRole),
}

impl Ending for MarketStatus {
    ghost use Rattle.tool_frame.specs.Status.{code_of, said_of};

    type Words = MarketStatus;

    ghost code = { code_of };

    ghost line = { said_of };

    fn code(&self) -> u8 {
        match self {
            MarketStatus::Done => 0,
            MarketStatus::Usage => 2,
            MarketStatus::Market(..) => 3,
            MarketStatus::ReadFault => 5,
            MarketStatus::WriteFault => 6,
            MarketStatus::NoMemory => 7,
            MarketStatus::Absent(_) => 8,
        }
    }

    fn usage() -> Self {
        MarketStatus::Usage
    }

    fn no_memory() -> Self {
        MarketStatus::NoMemory
    }

    fn words(&self) -> Option<MarketStatus> {
        if *self == MarketStatus::Done {
            return None;
        }
        Some(*self)
    }
}

impl ToolStatus for MarketStatus {
    ghost use Rattle.tool_frame.specs.Status.{market_ends, market_ends_sound};

    ghost ends = { market_ends };

    fn done() -> Self {
        MarketStatus::Done
    }

    fn cut() -> Self {
        MarketStatus::WriteFault
    }

    fn halted() -> Self {
        MarketStatus::NoMemory
    }

    ghost sound = { market_ends_sound };
}

// The status of a market that was not read.
impl From<LoadFault> for MarketStatus {
    ghost use Rattle.std.specs.Prelude.{◌≡◌};
    ghost use Rattle.tool_frame.specs.Status.{load_status};

    ghost from_gives = { λ fault e. e ≡ load_status fault };

    fn from(fault: LoadFault) -> Self {
        match fault {
            LoadFault::Fault {
                section,
                entry,
                kind,
            } => MarketStatus::Market(section, entry, kind),
            LoadFault::Read => MarketStatus::ReadFault,
            LoadFault::Absent(role) => MarketStatus::Absent(role),
            LoadFault::NoMemory => MarketStatus::NoMemory,
        }
    }
}

impl From<AllocError> for MarketStatus {
    ghost use Rattle.std.specs.Prelude.{◌≡◌};
    ghost use Rattle.tool_frame.specs.declared.status.MarketStatus.TheVariants.{NoMemory};

    ghost from_gives = { λ _ e. e ≡ NoMemory };

    fn from(_: AllocError) -> Self {
        MarketStatus::NoMemory
    }
}

// A status prints as the text of its line after the program's name: nothing for Done.
impl fmt::Display for MarketStatus {
    ghost use Rattle.std.specs.Prelude.{Some};
    ghost use Rattle.tool_frame.specs.Status.{words_of};

    ghost output = { λ s. Some (words_of s) };

    fn fmt<W: fmt::Write>(&self, f: &mut fmt::Formatter<W>) -> fmt::Result {
        let word = match self {
            MarketStatus::Market(section, entry, kind) => {
                return write!(f, "market {section} {entry} {kind}");
            }
            MarketStatus::Absent(role) => return write!(f, "no file {role}"),
            MarketStatus::Done => "",
            MarketStatus::Usage => "usage",
            MarketStatus::ReadFault => "read fault",
            MarketStatus::WriteFault => "write fault",
            MarketStatus::NoMemory => "no memory",
        };
        write!(f, "{word}")
    }
}
