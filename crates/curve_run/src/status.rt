// How a run of the program ended.
use std::fmt;
use tool_frame::{Ending, MarketStatus};

/// How a run of the program ended.
#[derive(Clone, Copy, PartialEq, Eq)]
pub enum CurveStatus {
    /// As a run of a tool ends that reads a market and nothing else.
    Of(MarketStatus),
    /// A name stands for no curve, or a curve has no value or a rate out of range. The lines that say so were noted.
    Refused,
}

impl Ending for CurveStatus {
    ghost use Rattle.curve_run.specs.Status.{code_of, said_of};

    type Words = CurveWords;

    ghost code = { code_of };

    ghost line = { said_of };

    fn code(&self) -> u8 {
        match self {
            CurveStatus::Of(status) => status.code(),
            CurveStatus::Refused => 10,
        }
    }

    fn usage() -> Self {
        CurveStatus::Of(MarketStatus::Usage)
    }

    fn no_memory() -> Self {
        CurveStatus::Of(MarketStatus::NoMemory)
    }

    fn words(&self) -> Option<CurveWords> {
        if *self == CurveStatus::Of(MarketStatus::Done) {
            return None;
        }
        Some(CurveWords(*self))
    }
}

/// What the line of a status on standard error says behind the program's name.
#[derive(Clone, Copy)]
pub struct CurveWords(pub CurveStatus);

impl fmt::Display for CurveWords {
    ghost use Rattle.std.specs.Prelude.{Some};
    ghost use Rattle.curve_run.specs.Status.{words_of};

    ghost output = { λ words. Some (words_of words.0) };

    fn fmt<W: fmt::Write>(&self, f: &mut fmt::Formatter<W>) -> fmt::Result {
        match self.0 {
            CurveStatus::Of(status) => write!(f, "{status}"),
            CurveStatus::Refused => write!(f, "refused"),
        }
    }
}
