// The files that a request names, in reading order.
ghost use Rattle.std.specs.Prelude.{◌≡◌, IfOk, IfErr, IfSome, IsErrOf, IsSome};
ghost use Rattle.desk_edge.specs.Shelf.{file_at, files_of};
ghost use Rattle.desk_names.specs.Names.{IsNames};
ghost use Rattle.market_file.specs.Standing.{IsReady};
ghost use Rattle.market_loader.specs.Files.{file_calls};
ghost use Rattle.market_loader.specs.Market.{market_calls};
ghost use Rattle.market_loader.specs.Reads.{Reads, Says, seen};
ghost use Rattle.tool_frame.specs.Market.{market_in};
ghost use Rattle.tool_script.specs.Found.{CanRun, IsRefusal, run_in};
ghost use Rattle.tool_script.specs.Reading.{market_at};
ghost use Rattle.tool_script.specs.Refusals.{status_end};
ghost use Rattle.tool_script.specs.Verdict.{scripted, run_over, run_at, run_calls};

use crate::refusals::{file_status, script_status};
use crate::{ScriptRun, Status};
use desk_edge::Shelf;
use desk_names::Names;
use market_loader::load_file;
use session_lang::read_script;
use std::alloc::Global;
use tool_frame::OpenMarket;

/// The script at a path, over the market at another, or the first failure in reading order: the market's file, the tables
/// that it names, the market, the script's file, the script.
pub fn open_run<H: Shelf>(
    alloc: Global,
    shelf: &mut H,
    market: &str,
    script: &str,
) -> Result<ScriptRun, Status>
    ensures reads { Reads status_end run_in (run_at market.now script.now) (run_calls market.now script.now)
        (seen (H.contents shelf.old) (H.faults shelf.old) (H.misses shelf.old) (H.calls shelf.old))
        (seen (H.contents shelf.new) (H.faults shelf.new) (H.misses shelf.new) (H.calls shelf.new)) result }
    // Memory is wanted only where the market's file is there.
    ensures there { IfSome (files_of (H.contents shelf.old))
        (λ files. IsErrOf result Status.NoMemory → IsSome (file_at files market.now)) }
    ensures whole { IfOk result CanRun }
    ensures refused { IfErr result IsRefusal }
{
    let market = open_market(alloc, shelf, market)?;
    open_script(alloc, shelf, market, script)
}

// The market at a path, with the tables that it names.
pub(crate) fn open_market<H: Shelf>(
    alloc: Global,
    shelf: &mut H,
    path: &str,
) -> Result<OpenMarket, Status>
    ensures reads { Reads status_end market_in (market_at path.now) (market_calls path.now)
        (seen (H.contents shelf.old) (H.faults shelf.old) (H.misses shelf.old) (H.calls shelf.old))
        (seen (H.contents shelf.new) (H.faults shelf.new) (H.misses shelf.new) (H.calls shelf.new)) result }
    ensures there { IfSome (files_of (H.contents shelf.old))
        (λ files. IsErrOf result Status.NoMemory → IsSome (file_at files path.now)) }
    ensures ready { IfOk result (λ market. IsReady market.names market.made.items) }
    ensures refused { IfErr result IsRefusal }
{
    match tool_frame::open_market(alloc, path, shelf) {
        Ok(market) => Ok(market),
        Err(status) => Err(Status::from(status)),
    }
}

// The script at a path, over a market.
fn open_script<H: Shelf>(
    alloc: Global,
    shelf: &mut H,
    market: OpenMarket,
    path: &str,
) -> Result<ScriptRun, Status>
    requires ready { IsReady market.names market.made.items }
    ensures reads { Reads status_end run_in (run_over (market_in market) path.now) (file_calls path.now)
        (seen (H.contents shelf.old) (H.faults shelf.old) (H.misses shelf.old) (H.calls shelf.old))
        (seen (H.contents shelf.new) (H.faults shelf.new) (H.misses shelf.new) (H.calls shelf.new)) result }
    ensures whole { IfOk result CanRun }
    ensures refused { IfErr result IsRefusal }
{
    match load_file(alloc, path, shelf) {
        Ok(text) => scripted(alloc, market, &text),
        Err(fault) => Err(file_status(fault)),
    }
}

// The script of a text, over a market.
pub(crate) fn scripted(
    alloc: Global,
    mut market: OpenMarket,
    text: &[u8],
) -> Result<ScriptRun, Status>
    requires ready { IsReady market.names market.made.items }
    ensures says { Says status_end run_in result (scripted (market_in market) text.now) }
    ensures whole { IfOk result CanRun }
    ensures refused { IfErr result IsRefusal }
{
    check_names(&market.names);
    match read_script(alloc, text, &mut market.names) {
        Ok(script) => Ok(ScriptRun { market, script }),
        Err(fault) => Err(script_status(fault)),
    }
}

// Names are distinct, and no more than there may be.
fn check_names(names: &Names)
    ensures { IsNames names.now }
{
    let _ = names.len();
}
