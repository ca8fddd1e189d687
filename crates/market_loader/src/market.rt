// A market with the tables that it names.
ghost use Rattle.std.specs.Prelude.{◌≡◌, IfOk, IfSome, IsErrOf, IsSome, OnErr};
ghost use Rattle.std.specs.List.{All};
ghost use Rattle.desk_edge.specs.Shelf.{file_at, files_of};
ghost use Rattle.desk_terms.specs.Reading.{AreInRange};
ghost use Rattle.market_file.specs.Standing.{IsReady, AreLimited};
ghost use Rattle.market_loader.specs.Ends.{load_end};
ghost use Rattle.market_loader.specs.Market.{market_in, market_of, market_calls};
ghost use Rattle.market_loader.specs.Reads.{Reads, seen};

use crate::LoadFault;
use crate::texts::load_texts;
use desk_edge::Shelf;
use desk_names::Names;
use market_file::Market;
use std::alloc::Global;

/// The market at a path, with the tables that it names, or the first failure in reading order: the market's file, what
/// it names, the file of the quotes, that of the fixings, the market. Each file is looked for once, and nothing behind the
/// first failure. `names` becomes the names of the market's objects, `today` first, and stays as it was where there is no
/// market.
pub fn load_market<H: Shelf>(
    alloc: Global,
    path: &str,
    shelf: &mut H,
    names: &mut Names,
) -> Result<Market, LoadFault>
    // The answer is that of the files, but for a call of the shelf that failed and want of memory; and the calls of the
    // shelf, its faults and its misses are counted.
    ensures reads { Reads load_end (market_in names.new) (market_of path.now) (market_calls path.now)
        (seen (H.contents shelf.old) (H.faults shelf.old) (H.misses shelf.old) (H.calls shelf.old))
        (seen (H.contents shelf.new) (H.faults shelf.new) (H.misses shelf.new) (H.calls shelf.new)) result }
    // Memory is wanted only where the market's file is there.
    ensures there { IfSome (files_of (H.contents shelf.old))
        (λ files. IsErrOf result LoadFault.NoMemory → IsSome (file_at files path.now)) }
    ensures ready { IfOk result (λ market. IsReady names.new market.made.items) }
    ensures ranged { IfOk result (λ market. All (λ entry. AreInRange entry.1) market.made.items) }
    ensures limited { IfOk result (λ market. All (λ entry. AreLimited entry.1) market.made.items) }
    ensures err { OnErr result (names.new ≡ names.old) }
{
    let texts = load_texts(alloc, path, shelf)?;
    texts.market(alloc, names)
}
