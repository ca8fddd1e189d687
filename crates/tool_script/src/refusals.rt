// The status of a reading that gave nothing.
ghost use Rattle.std.specs.Prelude.{◌≡◌};
ghost use Rattle.tool_script.specs.Refusals.{role_of, file_status, market_status, script_status};

use crate::{FileRole, Status};
use market_file::MarketFault;
use market_loader::{FileFault, MarketRole};
use session_commands::ScriptKind;
use session_lang::ScriptFault;
use tool_frame::MarketStatus;

// A file of a market, as a status tells it.
fn role_of(role: MarketRole) -> FileRole
    ensures { result ≡ role_of role }
{
    match role {
        MarketRole::Market => FileRole::Market,
        MarketRole::Quotes => FileRole::Quotes,
        MarketRole::Fixings => FileRole::Fixings,
    }
}

// The status of a market that was not read.
impl From<MarketStatus> for Status {
    ghost use Rattle.std.specs.Prelude.{◌≡◌};
    ghost use Rattle.tool_script.specs.Refusals.{as_status};

    ghost from_gives = { λ s e. e ≡ as_status s };

    fn from(status: MarketStatus) -> Self {
        match status {
            MarketStatus::Done => Status::Done,
            MarketStatus::Usage => Status::Usage,
            MarketStatus::Market(section, entry, kind) => Status::Market(section, entry, kind),
            MarketStatus::ReadFault => Status::ReadFault,
            MarketStatus::WriteFault => Status::WriteFault,
            MarketStatus::NoMemory => Status::NoMemory,
            MarketStatus::Absent(role) => Status::Absent(role_of(role)),
        }
    }
}

// The status of a script's file that was not read.
pub(crate) fn file_status(fault: FileFault) -> Status
    ensures { result ≡ file_status fault }
{
    match fault {
        FileFault::Absent => Status::Absent(FileRole::Script),
        FileFault::TooLong => Status::Script(0, ScriptKind::TooLong),
        FileFault::Read => Status::ReadFault,
        FileFault::NoMemory => Status::NoMemory,
    }
}

// The status of texts that are no market.
pub(crate) fn market_status(fault: MarketFault) -> Status
    ensures { result ≡ market_status fault }
{
    match fault {
        MarketFault::At {
            section,
            entry,
            kind,
        } => Status::Market(section, entry, kind),
        MarketFault::NoMemory => Status::NoMemory,
    }
}

// The status of a text that is no script.
pub(crate) fn script_status(fault: ScriptFault) -> Status
    ensures { result ≡ script_status fault }
{
    match fault {
        ScriptFault::At { line, kind } => Status::Script(line, kind),
        ScriptFault::NoMemory => Status::NoMemory,
    }
}
