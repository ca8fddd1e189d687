// The request for a market, and the market that was read for it.
ghost use Rattle.std.specs.Prelude.{map, IfOk};
ghost use Rattle.std.specs.List.{All};
ghost use Rattle.std.specs.String.{string_bytes};
ghost use Rattle.market_file.specs.Standing.{IsReady, AreLimited};
ghost use Rattle.tool_frame.specs.Market.{market_asks, wanted_in};
ghost use Rattle.tool_frame.specs.Status.{market_ends};
ghost use Rattle.tool_frame.specs.Tool.{Finds, shelf_turn};

use crate::{MarketStatus, OpenMarket, Pair, open_market, pair_of};
use desk_edge::Shelf;
use std::alloc::Global;

/// A request for the market at a path.
pub trait MarketRequest<'a>: Copy {
    ghost use Rattle.std.specs.Prelude.{◌≡◌, ℕ, List, Option, map, option_map, IfSome};
    ghost use Rattle.std.specs.String.{string_bytes};

    /// The request, as the definitions see it.
    ghost Meaning: { Type 0 };

    ghost meaning: { Self → Self.Meaning };

    /// The path of the market.
    ghost path: { Self.Meaning → List ℕ };

    /// The request of the words, or none where they are not accepted.
    ghost request_of: { List (List ℕ) → Option Self.Meaning };

    /// The property of each accepted request.
    ghost IsTaken: { Self → Type 0 } = { λ _. Unit {0} };

    /// Returns the request of the words, or none where they are not accepted.
    fn from_words(words: &'a [String]) -> Option<Self>
        ensures request { option_map Self.meaning result ≡ Self.request_of (map string_bytes words.now) }
        ensures taken { IfSome result Self.IsTaken };

    /// Returns the path of the market.
    fn market(self) -> &'a str
        ensures { result.now ≡ Self.path (Self.meaning self) };
}

/// A market that was read, and what is asked of it.
#[derive(Drop)]
pub struct Found<R> {
    pub market: OpenMarket,
    pub request: R,
}

/// Returns the market that the words name, with the request.
///
/// # Errors
///
/// The first failure: `MarketStatus::Usage` where the words are not accepted, then the status of `open_market`.
pub fn find<'a, R: MarketRequest<'a>, H: Shelf>(
    alloc: Global,
    words: &'a [String],
    shelf: &mut H,
) -> Result<Found<R>, MarketStatus>
    ensures found { Finds market_ends (market_asks R.request_of R.path) (wanted_in R.meaning) (map string_bytes words.now) result
        (shelf_turn H.contents H.faults H.misses H.calls shelf.old shelf.new) }
    ensures ready { IfOk result (λ found. IsReady found.market.names found.market.made.items) }
    ensures limited { IfOk result (λ found. All (λ entry. AreLimited entry.1) found.market.made.items) }
    ensures taken { IfOk result (λ found. R.IsTaken found.request) }
{
    let Some(request) = R::from_words(words) else {
        return Err(MarketStatus::Usage);
    };
    match open_market(alloc, request.market(), shelf) {
        Ok(market) => Ok(Found { market, request }),
        Err(status) => Err(status),
    }
}

impl<'a> MarketRequest<'a> for Pair<'a> {
    ghost use Rattle.tool_frame.specs.Words.{Pair, pair_in, pair_of};

    ghost Meaning = { Pair };

    ghost meaning = { pair_in };

    ghost path = { λ pair. pair.market };

    ghost request_of = { pair_of };

    fn from_words(words: &'a [String]) -> Option<Self> {
        pair_of(words)
    }

    fn market(self) -> &'a str {
        self.market
    }
}
