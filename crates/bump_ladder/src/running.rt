// The call of the program.
ghost use Rattle.std.specs.Prelude.{map};
ghost use Rattle.std.specs.String.{string_bytes};
ghost use Rattle.tool_frame.specs.Status.{market_ends};
ghost use Rattle.tool_frame.specs.Tool.{IsRun, shelf_turn, sink_turn, bench_turn};
ghost use Rattle.bump_ladder.specs.Verdict.{bump_tool};

use crate::lines::name_lines;
use desk_edge::{Shelf, Sink};
use desk_terms::Bench;
use market_desk::{NamedDesk, named_desk};
use price_report::Namer;
use std::alloc::{AllocError, Global};
use tool_frame::{Found, MarketStatus, OpenMarket, Pair, Tool, find, run_tool};

/// Does what the words ask for over the files of the shelf, writes the lines to `out`, and answers how that went. The
/// words are those behind the program's name: the path of a market, and the name of an instrument. The prices are those
/// of the bench.
///
/// The first failure in this order is the answer: the words; the market's file and the tables' names in it; the file of
/// the quotes, and that of the fixings, where the market names them; the market. Then the lines are made whole, and
/// written. A fault outside, or want of memory, may come at any time.
pub fn run_bump<H: Shelf, K: Sink, B: Bench>(
    alloc: Global,
    words: &[String],
    shelf: &mut H,
    out: &mut K,
    bench: &mut B,
) -> MarketStatus
    ensures { IsRun market_ends bump_tool (map string_bytes words.now) result
        (shelf_turn H.contents H.faults H.misses H.calls shelf.old shelf.new)
        (sink_turn K.bytes K.faults out.old out.new) (bench_turn B.calc B.count B.log bench.old bench.new) }
{
    run_tool::<BumpTool, H, K, B>(alloc, words, shelf, out, bench)
}

// The lines of a ladder over a market.
struct BumpTool;

impl<'a> Tool<'a> for BumpTool {
    ghost use Rattle.market_file.specs.Standing.{IsReady};
    ghost use Rattle.tool_frame.specs.Market.{Wanted, wanted_in};
    ghost use Rattle.tool_frame.specs.Words.{Pair, pair_in};
    ghost use Rattle.bump_ladder.specs.Verdict.{bump_tool};

    type Wanted = Found<Pair<'a>>;

    type Status = MarketStatus;

    ghost Request = { Pair };

    ghost Asked = { Wanted Pair };

    ghost asked_in = { wanted_in pair_in };

    ghost tool = { bump_tool };

    ghost CanRun = { λ found. IsReady found.market.names found.market.made.items };

    fn find<H: Shelf>(
        alloc: Global,
        words: &'a [String],
        shelf: &mut H,
    ) -> Result<Found<Pair<'a>>, MarketStatus> {
        find(alloc, words, shelf)
    }

    fn text<B: Bench>(
        alloc: Global,
        wanted: Found<Pair<'a>>,
        bench: &mut B,
    ) -> Result<Vec<u8>, AllocError> {
        let Found { market, request } = wanted;
        let OpenMarket { names, today, made } = market;
        let named = named_desk(alloc, today, made)?;
        let NamedDesk {
            mut desk,
            of_object,
        } = named;
        let namer = Namer {
            names: &names,
            of_object: &of_object,
        };
        name_lines(alloc, &mut desk, request.other.as_bytes(), &namer, bench)
    }
}
