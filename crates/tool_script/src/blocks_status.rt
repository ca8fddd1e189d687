// How a run over a script of blocks ended.
use crate::{Status, StatusWords};
use std::fmt;
use tool_frame::{Ending, ToolStatus};

/// How a run over a script of blocks ended.
#[derive(Clone, Copy, PartialEq, Eq)]
pub enum BlocksStatus {
    /// As a run of `desk` ends.
    Of(Status),
    /// The script is not one of blocks: 1 for a command of a block, 2 for a command outside of blocks, 3 for a block that is
    /// named `base`, 4 for more than 1,000 blocks or asks; the first of these. Of steps, and then, 3 for a block that is named
    /// `total`.
    Shape(u32),
}

impl Ending for BlocksStatus {
    ghost use Rattle.tool_script.specs.BlocksStatus.{code_of, said_of};

    type Words = BlocksWords;

    ghost code = { code_of };

    ghost line = { said_of };

    fn code(&self) -> u8 {
        match self {
            BlocksStatus::Of(status) => status.code(),
            BlocksStatus::Shape(_) => 9,
        }
    }

    fn usage() -> Self {
        BlocksStatus::Of(Status::Usage)
    }

    fn no_memory() -> Self {
        BlocksStatus::Of(Status::NoMemory)
    }

    fn words(&self) -> Option<BlocksWords> {
        if *self == BlocksStatus::Of(Status::Done) {
            return None;
        }
        Some(BlocksWords(*self))
    }
}

impl ToolStatus for BlocksStatus {
    ghost use Rattle.tool_script.specs.BlocksStatus.{blocks_ends, blocks_ends_sound};

    ghost ends = { blocks_ends };

    fn done() -> Self {
        BlocksStatus::Of(Status::Done)
    }

    fn cut() -> Self {
        BlocksStatus::Of(Status::WriteFault)
    }

    fn halted() -> Self {
        BlocksStatus::Of(Status::NoMemory)
    }

    ghost sound = { blocks_ends_sound };
}

/// What the line of a status on standard error says behind the program's name.
#[derive(Clone, Copy)]
pub struct BlocksWords(pub BlocksStatus);

impl fmt::Display for BlocksWords {
    ghost use Rattle.std.specs.Prelude.{Some};
    ghost use Rattle.tool_script.specs.BlocksStatus.{words_of};

    ghost output = { λ words. Some (words_of words.0) };

    fn fmt<W: fmt::Write>(&self, f: &mut fmt::Formatter<W>) -> fmt::Result {
        match self.0 {
            BlocksStatus::Of(status) => write!(f, "{}", StatusWords(status)),
            BlocksStatus::Shape(fault) => write!(f, "shape {fault}"),
        }
    }
}
