// What a market is reported to hold.
ghost use Rattle.std.specs.Prelude.{◌≡◌};
ghost use Rattle.tool_script.specs.Fixings.{stored_in, fixings_in};
ghost use Rattle.tool_frame.specs.Market.{market_in};
ghost use Rattle.tool_script.specs.Found.{plan_in};
ghost use Rattle.tool_script.specs.Verdict.{check_of};

use crate::Plan;
use desk_terms::Terms;
use market_file::MadeList;
use tool_frame::OpenMarket;

// The report of a market.
pub(crate) fn check_of(market: &OpenMarket) -> Plan
    ensures { plan_in result ≡ check_of (market_in market.now) }
{
    Plan::Check {
        objects: market.made.len(),
        fixings: fixings_in(&market.made),
    }
}

// How many fixings are stored in all indexes together.
fn fixings_in(made: &MadeList) -> u128
    ensures { result ≡ fixings_in made.now.items }
{
    let mut count = 0;
    for (_, terms) in made {
        count += stored_in(terms) as u128;
    }
    count
}

// How many rates an object stores.
fn stored_in(terms: &Terms) -> usize
    ensures { result ≡ stored_in terms.now }
{
    match terms {
        Terms::Quote(_) => 0,
        Terms::Derived { .. } => 0,
        Terms::Handle { .. } => 0,
        Terms::Curve(_) => 0,
        Terms::Implied { .. } => 0,
        Terms::Index(_, fixings) => fixings.len(),
        Terms::Engine { .. } => 0,
        Terms::Stock { .. } => 0,
        Terms::Composite(_) => 0,
        Terms::Flows(..) => 0,
    }
}
