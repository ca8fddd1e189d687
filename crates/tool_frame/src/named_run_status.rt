// How a run of a tool that takes names ended.
use crate::Ending;
use std::fmt;

/// How a run of a tool that takes names ended.
#[derive(Clone, Copy, PartialEq, Eq)]
pub enum NamedStatus<S> {
    /// The status of a run whose names are right.
    Of(S),
    /// A name is unknown, or its kind is not accepted. The text was written.
    Refused,
}

/// The exit status of a run with a wrong name.
const REFUSED: u8 = 10;

impl<S: Ending> Ending for NamedStatus<S> {
    ghost use Rattle.tool_frame.specs.Named_runStatus.{code_of, said_of};

    type Words = NamedWords<S::Words>;

    ghost code = { code_of S.code };

    ghost line = { said_of S.line };

    fn code(&self) -> u8 {
        match self {
            NamedStatus::Of(status) => status.code(),
            NamedStatus::Refused => REFUSED,
        }
    }

    fn usage() -> Self {
        NamedStatus::Of(S::usage())
    }

    fn no_memory() -> Self {
        NamedStatus::Of(S::no_memory())
    }

    fn words(&self) -> Option<NamedWords<S::Words>> {
        match self {
            NamedStatus::Of(status) => status.words().map(NamedWords::Of),
            NamedStatus::Refused => Some(NamedWords::Refused),
        }
    }
}

/// The text of the line of a status after the program's name.
#[derive(Drop)]
pub enum NamedWords<T> {
    Of(T),
    Refused,
}

impl<T: fmt::Display> fmt::Display for NamedWords<T> {
    ghost use Rattle.tool_frame.specs.Named_runStatus.{words_of};

    ghost output = { λ words. words_of T.output words };

    fn fmt<W: fmt::Write>(&self, f: &mut fmt::Formatter<W>) -> fmt::Result {
        match self {
            NamedWords::Of(words) => write!(f, "{words}"),
            NamedWords::Refused => write!(f, "refused"),
        }
    }
}
