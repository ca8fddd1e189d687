// The call of the program.
ghost use Rattle.std.specs.Prelude.{◌≡◌, map, IfOk};
ghost use Rattle.std.specs.String.{string_bytes};
ghost use Rattle.desk_model.specs.Sound.{IsSound};
ghost use Rattle.desk_model.specs.Unheld.{HoldsNothing};
ghost use Rattle.desk_model.specs.Visit.{log_of};
ghost use Rattle.market_desk.specs.Standing.{standing};
ghost use Rattle.tool_frame.specs.Calls.{Calls};
ghost use Rattle.tool_frame.specs.Status.{market_ends};
ghost use Rattle.tool_frame.specs.Tool.{shelf_turn, sink_turn, bench_turn};
ghost use Rattle.tool_frame.specs.Named_runRun.{IsNamedRun};
ghost use Rattle.tool_risk.specs.Asking.{risk_calls};
ghost use Rattle.tool_risk.specs.Lines.{risk_text};
ghost use Rattle.tool_risk.specs.Named.{refuses_in};
ghost use Rattle.tool_risk.specs.Verdict.{risk_tool};

use crate::names::names_rows;
use crate::refusing::refuses_names;
use crate::words::Request;
use desk_edge::{Shelf, Sink};
use desk_terms::Bench;
use fixed_amount::Rate;
use lazy_objects::Desk;
use market_desk::{NamedDesk, named_desk};
use price_report::Namer;
use std::alloc::{AllocError, Global};
use tool_frame::{
    Found, MarketStatus, NamedStatus, NamedText, NamedTool, OpenMarket, find, run_named,
};

/// Does what the words ask for over the files of the shelf, writes the lines to `out`, and answers how that went. The
/// words are those behind the program's name: the path of a market, how far quotes are moved, and the names of instruments.
/// The prices are those of the bench.
///
/// The first failure in this order is the answer: the words; the market's file and the tables' names in it; the file of
/// the quotes, and that of the fixings, where the market names them; the market. Then the lines are made whole, and
/// written. A fault outside, or want of memory, may come at any time. A name that stands for no instrument is the answer where
/// all else went well.
pub fn run_risk<H: Shelf, K: Sink, B: Bench>(
    alloc: Global,
    words: &[String],
    shelf: &mut H,
    out: &mut K,
    bench: &mut B,
) -> NamedStatus<MarketStatus>
    ensures { IsNamedRun market_ends risk_tool refuses_in (map string_bytes words.now) result
        (shelf_turn H.contents H.faults H.misses H.calls shelf.old shelf.new)
        (sink_turn K.bytes K.faults out.old out.new) (bench_turn B.calc B.count B.log bench.old bench.new) }
{
    run_named::<RiskTool, H, K, B>(alloc, words, shelf, out, bench)
}

// The rows of instruments over a market.
struct RiskTool;

impl<'a> NamedTool<'a> for RiskTool {
    ghost use Rattle.market_file.specs.Standing.{IsReady};
    ghost use Rattle.tool_frame.specs.Market.{Wanted, wanted_in};
    ghost use Rattle.tool_risk.specs.Named.{refuses_in};
    ghost use Rattle.tool_risk.specs.Verdict.{risk_tool};
    ghost use Rattle.tool_risk.specs.Words.{Request, request_in};

    type Wanted = Found<Request<'a>>;

    type Status = MarketStatus;

    ghost Request = { Request };

    ghost Asked = { Wanted Request };

    ghost asked_in = { wanted_in request_in };

    ghost tool = { risk_tool };

    ghost refuses = { refuses_in };

    ghost CanRun = { λ found. IsReady found.market.names found.market.made.items };

    fn find<H: Shelf>(
        alloc: Global,
        words: &'a [String],
        shelf: &mut H,
    ) -> Result<Found<Request<'a>>, MarketStatus> {
        find(alloc, words, shelf)
    }

    fn text<B: Bench>(
        alloc: Global,
        wanted: Found<Request<'a>>,
        bench: &mut B,
    ) -> Result<NamedText, AllocError> {
        let Found { market, request } = wanted;
        let OpenMarket { names, today, made } = market;
        let named = named_desk(alloc, today, made)?;
        let NamedDesk {
            mut desk,
            of_object,
        } = named;
        let namer = Namer {
            names: &names,
            of_object: &of_object,
        };
        let refuses = refuses_names(&desk, &names, request.names);
        let text = lines_on(alloc, &mut desk, request.size, request.names, &namer, bench)?;
        Ok(NamedText { text, refuses })
    }
}

// The lines of names. It has the desk lent: a function that owns one lets it go at each exit.
#[tactic(auto, unfolding(crate::specs::Lines::risk_text))]
fn lines_on<B: Bench>(
    alloc: Global,
    desk: &mut Desk,
    size: Rate,
    texts: &[String],
    namer: &Namer<'_>,
    bench: &mut B,
) -> Result<Vec<u8>, AllocError>
    requires sound { IsSound (B.calc bench.old) desk.old }
    requires unheld { HoldsNothing desk.old }
    ensures lines { IfOk result (λ lines. lines.items
        ≡ risk_text (B.calc bench.old) (standing namer.now.names.now namer.now.of_object.now desk.old) size (map string_bytes texts.now)) }
    ensures calls { Calls (log_of (risk_calls (B.calc bench.old) (standing namer.now.names.now namer.now.of_object.now desk.old) size (map string_bytes texts.now)))
        result (B.count bench.old) (B.count bench.new) (B.log bench.old) (B.log bench.new) }
    ensures market { desk.new.market ≡ desk.old.market }
    ensures same { B.calc bench.new ≡ B.calc bench.old }
{
    let mut lines = Vec::new(alloc);
    lines.extend_from_slice(b"name,measure,quote,value\n")?;
    names_rows(alloc, desk, size, texts, namer, bench, &mut lines)?;
    Ok(lines)
}
