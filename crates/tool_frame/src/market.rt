// The market of a tool.
ghost use Rattle.std.specs.Prelude.{IfOk, IfErr, IfSome, IsErrOf, IsSome};
ghost use Rattle.std.specs.List.{All};
ghost use Rattle.desk_edge.specs.Shelf.{file_at, files_of};
ghost use Rattle.desk_terms.specs.Reading.{AreInRange};
ghost use Rattle.market_file.specs.Standing.{IsReady, AreLimited};
ghost use Rattle.market_loader.specs.Market.{market_calls};
ghost use Rattle.market_loader.specs.Reads.{Reads, seen};
ghost use Rattle.tool_frame.specs.Market.{market_in, market_at, status_end, IsRefusal};

use crate::MarketStatus;
use day_number::Day;
use desk_edge::Shelf;
use desk_names::Names;
use market_file::MadeList;
use market_loader::load_market;
use std::alloc::Global;

/// A market that was read: the names of its objects, its evaluation date, and the objects in order of creation.
#[derive(Drop)]
pub struct OpenMarket {
    pub names: Names,
    pub today: Day,
    pub made: MadeList,
}

/// Returns the market at a path, with the tables that it names.
///
/// # Errors
///
/// The first failure in reading order: a file that is absent or could not be read, a market that is refused, or
/// `MarketStatus::NoMemory` where memory runs out.
pub fn open_market<H: Shelf>(
    alloc: Global,
    path: &str,
    shelf: &mut H,
) -> Result<OpenMarket, MarketStatus>
    ensures reads { Reads status_end market_in (market_at path.now) (market_calls path.now)
        (seen (H.contents shelf.old) (H.faults shelf.old) (H.misses shelf.old) (H.calls shelf.old))
        (seen (H.contents shelf.new) (H.faults shelf.new) (H.misses shelf.new) (H.calls shelf.new)) result }
    // It is out of memory only where the market's file is there.
    ensures there { IfSome (files_of (H.contents shelf.old))
        (λ files. IsErrOf result MarketStatus.NoMemory → IsSome (file_at files path.now)) }
    ensures ready { IfOk result (λ market. IsReady market.names market.made.items) }
    ensures ranged { IfOk result (λ market. All (λ entry. AreInRange entry.1) market.made.items) }
    ensures limited { IfOk result (λ market. All (λ entry. AreLimited entry.1) market.made.items) }
    ensures refusal { IfErr result IsRefusal }
{
    let mut names = Names::new(alloc);
    match load_market(alloc, path, shelf, &mut names) {
        Ok(market) => Ok(OpenMarket {
            names,
            today: market.today,
            made: market.made,
        }),
        Err(fault) => Err(MarketStatus::from(fault)),
    }
}
