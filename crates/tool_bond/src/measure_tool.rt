// What the program says.
use crate::measure_lines::{push_gain, push_measure};
use crate::pushing::RATE_PLACES;
use crate::spreads::push_spread;
use crate::{Bond, BondTool};
use bond_measure::{convexity, duration};
use std::alloc::{AllocError, Global};

/// What `doqs measure` says: it writes the measures of a bond behind the line of its yield, and its spread over the curve of its engine.
pub struct MeasureTool;

impl BondTool for MeasureTool {
    ghost use Rattle.desk_bench.specs.Pricing.{desk_calc};
    ghost use Rattle.tool_bond.specs.MeasureSays.{measure_says};

    ghost wording = { measure_says desk_calc };

    fn word() -> &'static [u8] {
        b"measure"
    }

    #[tactic(auto, unfolding(crate::specs::MeasureLines::measures_text))]
    fn push_more(alloc: Global, bond: &Bond<'_>, out: &mut Vec<u8>) -> Result<(), AllocError> {
        push_gain(alloc, bond.flows, bond.name, bond.settle, bond.y, out)?;
        push_measure(
            alloc,
            bond.name,
            b"duration",
            duration(bond.flows, bond.settle, bond.y),
            RATE_PLACES,
            out,
        )?;
        push_measure(
            alloc,
            bond.name,
            b"convexity",
            convexity(bond.flows, bond.settle, bond.y),
            0,
            out,
        )?;
        push_spread(alloc, bond, out)
    }
}
