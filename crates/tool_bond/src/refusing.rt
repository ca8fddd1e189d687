// Which names stand for no flows.
ghost use Rattle.std.specs.Prelude.{◌≡◌};
ghost use Rattle.tool_frame.specs.Market.{market_in};
ghost use Rattle.tool_bond.specs.Named.{has_flows, is_refused};

use crate::named::{Place, place_named};
use desk_terms::Terms;
use tool_frame::OpenMarket;

// Whether a name is that of no bond, swap or forward rate agreement of a market.
pub(crate) fn is_refused(market: &OpenMarket, name: &[u8]) -> bool
    ensures { result ≡ is_refused (market_in market.now) name.now }
{
    match place_named(&market.names, name) {
        Place::Nowhere => true,
        Place::Today => true,
        Place::Object(place) => match market.made.get(place) {
            Some((_, terms)) => !has_flows(terms),
            None => true,
        },
    }
}

fn has_flows(terms: &Terms) -> bool
    ensures { result ≡ has_flows terms.now }
{
    match terms {
        Terms::Flows(..) => true,
        Terms::Quote(_)
        | Terms::Derived { .. }
        | Terms::Handle { .. }
        | Terms::Curve(_)
        | Terms::Implied { .. }
        | Terms::Index(..)
        | Terms::Engine { .. }
        | Terms::Stock { .. }
        | Terms::Composite(_) => false,
    }
}
