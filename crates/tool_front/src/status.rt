// How a run of the program ends.
use std::fmt;
use tool_frame::Ending;

/// How a run of the program ended.
#[derive(Clone, Copy, PartialEq, Eq)]
pub enum FrontStatus {
    /// With this exit status, and all its lines were written.
    Ended(u8),
    /// The words are no text.
    Usage,
    /// Standard output could not be written.
    WriteFault,
    /// Memory ran out.
    NoMemory,
}

impl Ending for FrontStatus {
    ghost use Rattle.tool_front.specs.Status.{code_of, said_of};

    type Words = FrontWords;

    ghost code = { code_of };

    ghost line = { said_of };

    fn code(&self) -> u8 {
        match self {
            FrontStatus::Ended(code) => *code,
            FrontStatus::Usage => 2,
            FrontStatus::WriteFault => 6,
            FrontStatus::NoMemory => 7,
        }
    }

    fn usage() -> Self {
        FrontStatus::Usage
    }

    fn no_memory() -> Self {
        FrontStatus::NoMemory
    }

    fn words(&self) -> Option<FrontWords> {
        match self {
            FrontStatus::Ended(_) => None,
            FrontStatus::Usage => Some(FrontWords::Usage),
            FrontStatus::WriteFault => Some(FrontWords::WriteFault),
            FrontStatus::NoMemory => Some(FrontWords::NoMemory),
        }
    }
}

/// What the line of a status that has one says after the program's name.
#[derive(Clone, Copy)]
pub enum FrontWords {
    Usage,
    WriteFault,
    NoMemory,
}

impl fmt::Display for FrontWords {
    ghost use Rattle.std.specs.Prelude.{Some};
    ghost use Rattle.tool_front.specs.Status.{words_text};

    ghost output = { λ words. Some (words_text words) };

    fn fmt<W: fmt::Write>(&self, f: &mut fmt::Formatter<W>) -> fmt::Result {
        let text = match self {
            FrontWords::Usage => "usage",
            FrontWords::WriteFault => "write fault",
            FrontWords::NoMemory => "no memory",
        };
        write!(f, "{text}")
    }
}
