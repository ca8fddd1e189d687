// A program about a bond.
use day_number::Day;
use desk_names::ObjId;
use fixed_amount::Amount;
use flow_terms::FlowTerms;
use std::alloc::{AllocError, Global};
use tool_frame::OpenMarket;

/// A bond of a market that has a yield at a price.
#[derive(Clone, Copy)]
pub struct Bond<'a> {
    /// Its market.
    pub market: &'a OpenMarket,
    /// The engine that it names there.
    pub engine: Option<ObjId>,
    pub name: &'a [u8],
    pub flows: &'a FlowTerms,
    /// The settlement day.
    pub settle: Day,
    /// The price with the interest that has accrued.
    pub full: Amount,
    /// Its yield there, in units of 10^-9.
    pub y: u64,
}

/// A program about a bond, told from another by what it says beside the accrued interest, the price and the yield.
pub trait BondTool {
    ghost use Rattle.std.specs.Prelude.{◌≡◌, true, ◌≤◌, ◌++◌, OnOk};
    ghost use Rattle.flow_terms.specs.Ranges.{AreFlowsInRange};
    ghost use Rattle.bond_yield.specs.declared.yields.TheConstants.{MOST_YIELD};
    ghost use Rattle.bond_yield.specs.Fixed.{is_fixed};
    ghost use Rattle.market_file.specs.Standing.{IsReady};
    ghost use Rattle.tool_bond.specs.Asked.{bond_in};
    ghost use Rattle.tool_bond.specs.Wording.{Wording};

    /// What it says.
    ghost wording: { Wording };

    /// What it is asked for, in the line of a name that has no flows.
    fn word() -> &'static [u8]
        ensures { result.now ≡ wording.word };

    /// Appends what it says behind the line of a yield.
    fn push_more(alloc: Global, bond: &Bond<'_>, out: &mut Vec<u8>) -> Result<(), AllocError>
        requires ready { IsReady bond.now.market.now.names bond.now.market.now.made.items }
        requires range { AreFlowsInRange bond.now.flows.now }
        requires fixed { is_fixed bond.now.flows.now.flows ≡ true }
        requires high { bond.now.y ≤ MOST_YIELD }
        ensures { OnOk result (out.new.items ≡ out.old.items ++ wording.more (bond_in bond.now)) };
}
