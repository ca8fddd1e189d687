// What the program says.
use crate::{Bond, BondTool};
use std::alloc::{AllocError, Global};

/// The program `desk_yield`, which ends with the line of the yield.
pub struct YieldTool;

impl BondTool for YieldTool {
    ghost use Rattle.tool_bond.specs.YieldSays.{yield_says};

    ghost wording = { yield_says };

    fn word() -> &'static [u8] {
        b"yield"
    }

    fn push_more(_alloc: Global, _bond: &Bond<'_>, _out: &mut Vec<u8>) -> Result<(), AllocError> {
        Ok(())
    }
}
