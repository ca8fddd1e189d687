// The texts of a market's files.
ghost use Rattle.std.specs.Prelude.{◌≡◌, IfOk, IfSome, IsErrOf, IsSome, OnErr};
ghost use Rattle.std.specs.List.{All};
ghost use Rattle.desk_edge.specs.Shelf.{file_at, files_of};
ghost use Rattle.desk_terms.specs.Reading.{AreInRange};
ghost use Rattle.market_file.specs.Paths.{market_paths};
ghost use Rattle.market_file.specs.Standing.{IsReady, AreLimited};
ghost use Rattle.market_loader.specs.Ends.{load_end};
ghost use Rattle.market_loader.specs.Files.{file_calls};
ghost use Rattle.market_loader.specs.Market.{market_in, texts_in, part_of, table_of, table_calls, or_fault, with_text, text_calls, texts_of, market_said, market_calls};
ghost use Rattle.market_loader.specs.Reads.{Reads, Says, seen};

use crate::faults::{load_fault, role_fault};
use crate::file::load_file;
use crate::{LoadFault, MarketRole};
use desk_edge::Shelf;
use desk_names::{Names, PathText};
use market_file::{Market, Paths, market_paths, read_market};
use std::alloc::Global;

// The texts of a market's files.
#[derive(Drop)]
pub(crate) struct MarketTexts {
    // The text of the market's own file.
    pub(crate) text: Vec<u8>,
    // The table of quotes; no bytes where the market names none.
    pub(crate) quotes: Vec<u8>,
    // The table of fixings; no bytes where the market names none.
    pub(crate) fixings: Vec<u8>,
}

/// The texts of the market at a path and of the tables that it names, or the first failure in reading order: the market's
/// file, what it names, the file of the quotes, that of the fixings. Each file is looked for once, and nothing behind the
/// first failure.
pub(crate) fn load_texts<H: Shelf>(
    alloc: Global,
    path: &str,
    shelf: &mut H,
) -> Result<MarketTexts, LoadFault>
    ensures reads { Reads load_end texts_in (texts_of path.now) (market_calls path.now)
        (seen (H.contents shelf.old) (H.faults shelf.old) (H.misses shelf.old) (H.calls shelf.old))
        (seen (H.contents shelf.new) (H.faults shelf.new) (H.misses shelf.new) (H.calls shelf.new)) result }
    ensures there { IfSome (files_of (H.contents shelf.old))
        (λ files. IsErrOf result LoadFault.NoMemory → IsSome (file_at files path.now)) }
{
    let text = load_part(alloc, path, shelf, MarketRole::Market)?;
    with_text(alloc, text, shelf)
}

// The texts of a market of this text: the tables that it names are read.
fn with_text<H: Shelf>(
    alloc: Global,
    text: Vec<u8>,
    shelf: &mut H,
) -> Result<MarketTexts, LoadFault>
    ensures { Reads load_end texts_in (with_text text.items) (text_calls text.items)
        (seen (H.contents shelf.old) (H.faults shelf.old) (H.misses shelf.old) (H.calls shelf.old))
        (seen (H.contents shelf.new) (H.faults shelf.new) (H.misses shelf.new) (H.calls shelf.new)) result }
{
    let paths = paths_of(alloc, &text)?;
    let quotes = load_table(alloc, &paths.quotes, shelf, MarketRole::Quotes)?;
    let fixings = load_table(alloc, &paths.fixings, shelf, MarketRole::Fixings)?;
    Ok(MarketTexts {
        text,
        quotes,
        fixings,
    })
}

impl MarketTexts {
    // The market that the texts say, or their first fault. `names` becomes the names of the market's objects, `today`
    // first, and stays as it was where there is no market.
    pub(crate) fn market(&self, alloc: Global, names: &mut Names) -> Result<Market, LoadFault>
        ensures says { Says load_end (market_in names.new) result (market_said (texts_in self.now)) }
        ensures ready { IfOk result (λ market. IsReady names.new market.made.items) }
        ensures ranged { IfOk result (λ market. All (λ entry. AreInRange entry.1) market.made.items) }
        ensures limited { IfOk result (λ market. All (λ entry. AreLimited entry.1) market.made.items) }
        ensures err { OnErr result (names.new ≡ names.old) }
    {
        match read_market(alloc, &self.text, &self.quotes, &self.fixings, names) {
            Ok(market) => Ok(market),
            Err(fault) => Err(load_fault(fault)),
        }
    }
}

// The whole of a file of a market.
fn load_part<H: Shelf>(
    alloc: Global,
    path: &str,
    shelf: &mut H,
    role: MarketRole,
) -> Result<Vec<u8>, LoadFault>
    ensures reads { Reads load_end (λ text. text.items) (part_of role path.now) (file_calls path.now)
        (seen (H.contents shelf.old) (H.faults shelf.old) (H.misses shelf.old) (H.calls shelf.old))
        (seen (H.contents shelf.new) (H.faults shelf.new) (H.misses shelf.new) (H.calls shelf.new)) result }
    ensures there { IfSome (files_of (H.contents shelf.old))
        (λ files. IsErrOf result LoadFault.NoMemory → IsSome (file_at files path.now)) }
{
    match load_file(alloc, path, shelf) {
        Ok(text) => Ok(text),
        Err(fault) => Err(role_fault(role, fault)),
    }
}

// The whole of a table beside the market, where the market names it; else no bytes.
fn load_table<H: Shelf>(
    alloc: Global,
    path: &Option<PathText>,
    shelf: &mut H,
    role: MarketRole,
) -> Result<Vec<u8>, LoadFault>
    ensures { Reads load_end (λ text. text.items) (table_of role path.now) (table_calls path.now)
        (seen (H.contents shelf.old) (H.faults shelf.old) (H.misses shelf.old) (H.calls shelf.old))
        (seen (H.contents shelf.new) (H.faults shelf.new) (H.misses shelf.new) (H.calls shelf.new)) result }
{
    match path {
        Some(path) => load_part(alloc, path.text(), shelf, role),
        None => Ok(Vec::new(alloc)),
    }
}

// The files that a market names.
fn paths_of(alloc: Global, text: &[u8]) -> Result<Paths, LoadFault>
    ensures { Says load_end (λ paths. paths) result (or_fault (market_paths text.now)) }
{
    match market_paths(alloc, text) {
        Ok(paths) => Ok(paths),
        Err(fault) => Err(load_fault(fault)),
    }
}
