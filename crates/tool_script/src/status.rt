// How a call of `run` ended.
ghost use Rattle.std.specs.Prelude.{◌≡◌};
ghost use Rattle.tool_script.specs.Status.{code_of};

use market_file::{MarketKind, Section};
use session_commands::ScriptKind;
use std::alloc::AllocError;
use std::fmt;
use tool_frame::{Ending, ToolStatus};

/// A file that is read.
#[derive(Clone, Copy, PartialEq, Eq)]
pub enum FileRole {
    Market,
    /// The table of quotes that the market names.
    Quotes,
    /// The table of fixings that the market names.
    Fixings,
    Script,
}

/// How a call of `run` ended.
#[derive(Clone, Copy, PartialEq, Eq)]
pub enum Status {
    /// The request was carried out, each file read to its end.
    Done,
    /// The words are no request.
    Usage,
    /// The market is refused: where, at which entry, and why.
    Market(Section, u32, MarketKind),
    /// The script is refused: at which line, and why.
    Script(u32, ScriptKind),
    /// A file could not be read.
    ReadFault,
    /// The output could not be written.
    WriteFault,
    /// Memory ran out.
    NoMemory,
    /// There is no such file.
    Absent(FileRole),
}

impl Status {
    /// The exit status of the program.
    pub fn code(&self) -> u8
        ensures { result ≡ code_of self.now }
    {
        match self {
            Status::Done => 0,
            Status::Usage => 2,
            Status::Market(..) => 3,
            Status::Script(..) => 4,
            Status::ReadFault => 5,
            Status::WriteFault => 6,
            Status::NoMemory => 7,
            Status::Absent(_) => 8,
        }
    }
}

impl Ending for Status {
    ghost use Rattle.tool_script.specs.Status.{code_of, said_of};

    type Words = StatusWords;

    ghost code = { code_of };

    ghost line = { said_of };

    fn code(&self) -> u8 {
        Status::code(self)
    }

    fn usage() -> Self {
        Status::Usage
    }

    fn no_memory() -> Self {
        Status::NoMemory
    }

    fn words(&self) -> Option<StatusWords> {
        if *self == Status::Done {
            return None;
        }
        Some(StatusWords(*self))
    }
}

impl ToolStatus for Status {
    ghost use Rattle.tool_script.specs.Status.{script_ends, script_ends_sound};

    ghost ends = { script_ends };

    fn done() -> Self {
        Status::Done
    }

    fn cut() -> Self {
        Status::WriteFault
    }

    fn halted() -> Self {
        Status::NoMemory
    }

    ghost sound = { script_ends_sound };
}

impl From<AllocError> for Status {
    ghost use Rattle.std.specs.Prelude.{◌≡◌};
    ghost use Rattle.tool_script.specs.declared.status.Status.TheVariants.{NoMemory};

    ghost from_gives = { λ _ e. e ≡ NoMemory };

    fn from(_: AllocError) -> Self {
        Status::NoMemory
    }
}

impl fmt::Display for FileRole {
    ghost use Rattle.std.specs.Prelude.{Some};
    ghost use Rattle.tool_script.specs.Status.{role_text};

    ghost output = { λ r. Some (role_text r) };

    fn fmt<W: fmt::Write>(&self, f: &mut fmt::Formatter<W>) -> fmt::Result {
        let word = match self {
            FileRole::Market => "market",
            FileRole::Quotes => "quotes",
            FileRole::Fixings => "fixings",
            FileRole::Script => "script",
        };
        write!(f, "{word}")
    }
}

/// What the line of a status on standard error says behind the program's name.
#[derive(Clone, Copy)]
pub struct StatusWords(pub Status);

impl fmt::Display for StatusWords {
    ghost use Rattle.std.specs.Prelude.{Some};
    ghost use Rattle.tool_script.specs.Status.{words_of};

    ghost output = { λ words. Some (words_of words.0) };

    fn fmt<W: fmt::Write>(&self, f: &mut fmt::Formatter<W>) -> fmt::Result {
        let word = match self.0 {
            Status::Market(section, entry, kind) => {
                return write!(f, "market {section} {entry} {kind}");
            }
            Status::Script(line, kind) => return write!(f, "script {line} {kind}"),
            Status::Absent(role) => return write!(f, "no file {role}"),
            Status::Done => "",
            Status::Usage => "usage",
            Status::ReadFault => "read fault",
            Status::WriteFault => "write fault",
            Status::NoMemory => "no memory",
        };
        write!(f, "{word}")
    }
}

// The line of `desk` on standard error, without its newline: nothing for Done.
impl fmt::Display for Status {
    ghost use Rattle.std.specs.Prelude.{Some};
    ghost use Rattle.tool_script.specs.Status.{status_text};

    ghost output = { λ s. Some (status_text s) };

    fn fmt<W: fmt::Write>(&self, f: &mut fmt::Formatter<W>) -> fmt::Result {
        if *self == Status::Done {
            return write!(f, "");
        }
        write!(f, "desk: {}", StatusWords(*self))
    }
}
