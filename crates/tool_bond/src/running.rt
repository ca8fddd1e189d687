// The call of the program.
ghost use Rattle.std.specs.Prelude.{◌≡◌, map, IfOk};
ghost use Rattle.std.specs.String.{string_bytes};
ghost use Rattle.tool_frame.specs.Idle.{no_bench};
ghost use Rattle.tool_frame.specs.Market.{market_in};
ghost use Rattle.tool_frame.specs.Status.{market_ends};
ghost use Rattle.tool_frame.specs.Tool.{IsRun, shelf_turn, sink_turn};
ghost use Rattle.market_file.specs.Standing.{IsReady};
ghost use Rattle.tool_bond.specs.Lines.{market_text};
ghost use Rattle.tool_bond.specs.Named.{IsTaken};
ghost use Rattle.tool_bond.specs.Verdict.{bond_tool, refuses_in};
ghost use Rattle.tool_frame.specs.Named_runRun.{IsNamedRun};

use crate::BondTool;
use crate::lines::push_name;
use crate::refusing::is_refused;
use crate::words::Request;
use desk_edge::{Shelf, Sink};
use desk_terms::Bench;
use std::alloc::{AllocError, Global};
use std::marker::PhantomData;
use tool_frame::{
    Found, IdleBench, MarketStatus, NamedStatus, NamedText, NamedTool, OpenMarket, Tool, find,
    run_named, run_tool,
};

// The tool that a program about a bond is.
struct Bonds<T> {
    of: PhantomData<T>,
}

impl<'a, T: BondTool> Tool<'a> for Bonds<T> {
    ghost use Rattle.market_file.specs.Standing.{IsReady};
    ghost use Rattle.tool_frame.specs.Market.{wanted_in};
    ghost use Rattle.tool_bond.specs.Named.{IsTaken};
    ghost use Rattle.tool_bond.specs.Verdict.{Wanted, bond_tool};
    ghost use Rattle.tool_bond.specs.Words.{Request, request_in};

    type Wanted = Found<Request<'a>>;

    type Status = MarketStatus;

    ghost Request = { Request };

    ghost Asked = { Wanted };

    ghost asked_in = { wanted_in request_in };

    ghost tool = { bond_tool T.wording };

    ghost CanRun = { λ found. IsReady found.market.names found.market.made.items × IsTaken found.market.made.items found.request.clean };

    fn find<H: Shelf>(
        alloc: Global,
        words: &'a [String],
        shelf: &mut H,
    ) -> Result<Found<Request<'a>>, MarketStatus> {
        find(alloc, words, shelf)
    }

    fn text<B: Bench>(
        alloc: Global,
        wanted: Found<Request<'a>>,
        _bench: &mut B,
    ) -> Result<Vec<u8>, AllocError> {
        let Found { market, request } = wanted;
        lines_in::<T>(alloc, &market, request)
    }
}

// The same tool, which also tells a name that stands for no flows.
impl<'a, T: BondTool> NamedTool<'a> for Bonds<T> {
    ghost use Rattle.market_file.specs.Standing.{IsReady};
    ghost use Rattle.tool_frame.specs.Market.{wanted_in};
    ghost use Rattle.tool_bond.specs.Named.{IsTaken};
    ghost use Rattle.tool_bond.specs.Verdict.{Wanted, bond_tool, refuses_in};
    ghost use Rattle.tool_bond.specs.Words.{Request, request_in};

    type Wanted = Found<Request<'a>>;

    type Status = MarketStatus;

    ghost Request = { Request };

    ghost Asked = { Wanted };

    ghost asked_in = { wanted_in request_in };

    ghost tool = { bond_tool T.wording };

    ghost refuses = { refuses_in };

    ghost CanRun = { λ found. IsReady found.market.names found.market.made.items × IsTaken found.market.made.items found.request.clean };

    fn find<H: Shelf>(
        alloc: Global,
        words: &'a [String],
        shelf: &mut H,
    ) -> Result<Found<Request<'a>>, MarketStatus> {
        find(alloc, words, shelf)
    }

    fn text<B: Bench>(
        alloc: Global,
        wanted: Found<Request<'a>>,
        _bench: &mut B,
    ) -> Result<NamedText, AllocError> {
        let Found { market, request } = wanted;
        let name = request.name.as_bytes();
        let text = lines_in::<T>(alloc, &market, request)?;
        let refuses = is_refused(&market, name);
        Ok(NamedText { text, refuses })
    }
}

/// Does what the words ask a program about a bond for over the files of the shelf, writes the lines to `out`, and answers how that went. The
/// words are those behind the program's name: the path of a market, the name of a bond, a settlement day and a clean
/// price.
///
/// The first failure in this order is the answer: the words; the market's file and the tables' names in it; the file of
/// the quotes, and that of the fixings, where the market names them; the market. Then the lines are made whole, and
/// written. A fault outside, or want of memory, may come at any time.
pub fn run_bond<T: BondTool, H: Shelf, K: Sink>(
    alloc: Global,
    words: &[String],
    shelf: &mut H,
    out: &mut K,
) -> MarketStatus
    ensures { IsRun market_ends (bond_tool T.wording) (map string_bytes words.now) result
        (shelf_turn H.contents H.faults H.misses H.calls shelf.old shelf.new) (sink_turn K.bytes K.faults out.old out.new) no_bench }
{
    run_tool::<Bonds<T>, H, K, IdleBench>(alloc, words, shelf, out, &mut IdleBench)
}

/// The same, and a name that stands for no flows is the result where all else went well.
pub fn run_named_bond<T: BondTool, H: Shelf, K: Sink>(
    alloc: Global,
    words: &[String],
    shelf: &mut H,
    out: &mut K,
) -> NamedStatus<MarketStatus>
    ensures { IsNamedRun market_ends (bond_tool T.wording) refuses_in (map string_bytes words.now) result
        (shelf_turn H.contents H.faults H.misses H.calls shelf.old shelf.new) (sink_turn K.bytes K.faults out.old out.new) no_bench }
{
    run_named::<Bonds<T>, H, K, IdleBench>(alloc, words, shelf, out, &mut IdleBench)
}

// The lines of what is wanted. Its market is lent: who owns one lets it go at each exit.
fn lines_in<T: BondTool>(
    alloc: Global,
    market: &OpenMarket,
    request: Request<'_>,
) -> Result<Vec<u8>, AllocError>
    requires ready { IsReady market.now.names market.now.made.items }
    requires taken { IsTaken market.now.made.items request.clean }
    ensures { IfOk result (λ lines. lines.items
        ≡ market_text T.wording (market_in market.now) request.entry.name.now request.entry.settle request.entry.clean) }
{
    let mut lines = Vec::new(alloc);
    push_name::<T>(
        alloc,
        market,
        request.name.as_bytes(),
        request.settle,
        request.clean,
        &mut lines,
    )?;
    Ok(lines)
}
