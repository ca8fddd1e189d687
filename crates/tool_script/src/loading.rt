// The texts of a load, read as those of files are.
ghost use Rattle.std.specs.Prelude.{◌≡◌, ◌≤◌, [], IfOk, IfErr};
ghost use Rattle.market_file.specs.Market.{read_market};
ghost use Rattle.market_file.specs.Standing.{IsReady};
ghost use Rattle.market_loader.specs.Reads.{Says};
ghost use Rattle.tool_frame.specs.Market.{market_in};
ghost use Rattle.tool_script.specs.Found.{CanRun, IsRefusal, run_in};
ghost use Rattle.tool_script.specs.Reading.{or_market};
ghost use Rattle.tool_script.specs.Refusals.{status_end};
ghost use Rattle.tool_script.specs.Verdict.{load_run};

use crate::reading::scripted;
use crate::refusals::market_status;
use crate::{ScriptRun, Status};
use desk_names::Names;
use load_maker::load_texts;
use market_file::read_market;
use std::alloc::Global;
use tool_frame::OpenMarket;

// The script of a load over its market.
pub(crate) fn open_load(alloc: Global, size: u32) -> Result<ScriptRun, Status>
    requires least { 1 ≤ size }
    requires most { size ≤ 1_000 }
    ensures says { Says status_end run_in result (load_run size) }
    ensures whole { IfOk result CanRun }
    ensures refused { IfErr result IsRefusal }
{
    let texts = load_texts(alloc, size)?;
    let market = opened(alloc, texts.market.bytes(), texts.quotes.bytes())?;
    scripted(alloc, market, texts.script.bytes())
}

// The market of a text and of its table of quotes, where it names no fixings.
fn opened(alloc: Global, text: &[u8], quotes: &[u8]) -> Result<OpenMarket, Status>
    ensures says { Says status_end market_in result (or_market (read_market text.now quotes.now [])) }
    ensures ready { IfOk result (λ market. IsReady market.names market.made.items) }
    ensures refused { IfErr result IsRefusal }
{
    let mut names = Names::new(alloc);
    match read_market(alloc, text, quotes, &[], &mut names) {
        Ok(market) => Ok(OpenMarket {
            names,
            today: market.today,
            made: market.made,
        }),
        Err(fault) => Err(market_status(fault)),
    }
}
