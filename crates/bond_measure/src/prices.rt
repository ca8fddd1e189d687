// Full prices at a yield, with their bounds.
ghost use Rattle.std.specs.Prelude.{◌≡◌, true, ◌≤◌, ◌*◌, ◌≤ℤ◌, pos};
ghost use Rattle.flow_terms.specs.declared.limits.TheConstants.{MOST_AMOUNT, MOST_FLOWS};
ghost use Rattle.flow_terms.specs.Ranges.{AreFlowsInRange};
ghost use Rattle.bond_yield.specs.declared.yields.TheConstants.{MOST_YIELD};
ghost use Rattle.bond_yield.specs.Fixed.{is_fixed};
ghost use Rattle.bond_yield.specs.Price as price;

use bond_yield::full_price;
use day_number::Day;
use fixed_amount::Rate;
use flow_terms::FlowTerms;

// The units of the full price at a yield in units of 10^-9.
pub(crate) fn price_at(flows: &FlowTerms, settle: Day, y: u64) -> i128
    requires range { AreFlowsInRange flows.now }
    requires fixed { is_fixed flows.now.flows ≡ true }
    requires most { y ≤ MOST_YIELD }
    ensures value { result ≡ price.full_price flows.now.flows settle y }
    ensures low { pos 0 ≤ℤ result }
    ensures high { result ≤ℤ pos (MOST_FLOWS * MOST_AMOUNT) }
{
    full_price(flows, settle, Rate(y as i64)).units()
}
