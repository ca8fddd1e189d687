// What words and files ask for.
ghost use Rattle.std.specs.Prelude.{◌≡◌, ◌↔◌, ◌+◌, ◌≤◌, map, None, option_map, IfOk, IfErr, IfSome, IsErrOf, IsSome};
ghost use Rattle.std.specs.String.{string_bytes};
ghost use Rattle.desk_edge.specs.Count.{Rose};
ghost use Rattle.desk_edge.specs.Shelf.{file_at, files_of};
ghost use Rattle.market_loader.specs.Market.{market_calls};
ghost use Rattle.market_loader.specs.Reads.{Reads, seen};
ghost use Rattle.market_file.specs.Standing.{IsReady};
ghost use Rattle.tool_frame.specs.Market.{market_in};
ghost use Rattle.tool_frame.specs.Run.{Tells, IsThere, faults_after};
ghost use Rattle.tool_frame.specs.Stage.{IsBefore};
ghost use Rattle.tool_script.specs.declared.status.FileRole.{FileRole};
ghost use Rattle.tool_script.specs.Found.{CanRun, IsRefusal, run_in};
ghost use Rattle.tool_script.specs.Refusals.{status_end};
ghost use Rattle.tool_script.specs.Status.{stage_of};
ghost use Rattle.tool_live.specs.Verdict.{live_in, bare, no_script, run_for, run_calls_for, verdict_of, reading_calls};
ghost use Rattle.tool_live.specs.Words.{request_of};

use crate::words::request_of;
use desk_edge::Shelf;
use desk_names::NameList;
use session_commands::{Actions, CommandList, Script};
use std::alloc::Global;
use tool_frame::{OpenMarket, open_market};
use tool_script::{ScriptRun, Status, open_run};
use watch_rounds::Order;

// A script over a market, the order in which due watchers run, and whether each line is told as done.
#[derive(Drop)]
pub(crate) struct Wanted {
    pub(crate) run: ScriptRun,
    pub(crate) order: Order,
    pub(crate) ready: bool,
}

// What the words and the files ask for, or the first failure in reading order.
pub(crate) fn wanted_of<H: Shelf>(
    alloc: Global,
    words: &[String],
    shelf: &mut H,
) -> Result<Wanted, Status>
    ensures tells { IfSome (files_of (H.contents shelf.old)) (λ files. Tells stage_of live_in result (verdict_of files (map string_bytes words.now))) }
    ensures usage { IsErrOf result Status.Usage ↔ (request_of (map string_bytes words.now) ≡ None) }
    ensures there { IfSome (files_of (H.contents shelf.old)) (λ files.
        IsErrOf result Status.NoMemory → IsThere (request_of (map string_bytes words.now)) (λ request. request.market) files) }
    ensures can { IfOk result (λ wanted. CanRun wanted.run) }
    ensures before { IfErr result (λ status. IsBefore (stage_of status)) }
    ensures files { files_of (H.contents shelf.new) ≡ files_of (H.contents shelf.old) }
    ensures calls { IfSome (files_of (H.contents shelf.old)) (λ files.
        H.calls shelf.new ≤ H.calls shelf.old + reading_calls files (map string_bytes words.now)) }
    ensures read { IsErrOf result Status.ReadFault → Rose (H.faults shelf.old) (H.faults shelf.new) }
    ensures counted { H.faults shelf.new ≡ faults_after stage_of result (H.faults shelf.old) }
    ensures absent { (role : FileRole) → IsErrOf result (Status.Absent role) → Rose (H.misses shelf.old) (H.misses shelf.new) }
{
    let Some(request) = request_of(words) else {
        return Err(Status::Usage);
    };
    match open(alloc, shelf, request.market, request.script) {
        Ok(run) => Ok(Wanted {
            run,
            order: request.order,
            ready: request.ready,
        }),
        Err(status) => Err(status),
    }
}

// The market at a path, and the script at another, where one is named.
fn open<'x, H: Shelf>(
    alloc: Global,
    shelf: &mut H,
    market: &'x str,
    script: Option<&'x str>,
) -> Result<ScriptRun, Status>
    ensures reads { Reads status_end run_in (run_for market.now (option_map (λ text. text.now) script.entry)) (run_calls_for market.now (option_map (λ text. text.now) script.entry))
        (seen (H.contents shelf.old) (H.faults shelf.old) (H.misses shelf.old) (H.calls shelf.old))
        (seen (H.contents shelf.new) (H.faults shelf.new) (H.misses shelf.new) (H.calls shelf.new)) result }
    ensures there { IfSome (files_of (H.contents shelf.old)) (λ files. IsErrOf result Status.NoMemory → IsSome (file_at files market.now)) }
    ensures whole { IfOk result CanRun }
    ensures refused { IfErr result IsRefusal }
{
    match script {
        Some(script) => open_run(alloc, shelf, market, script),
        None => open_bare(alloc, shelf, market),
    }
}

// A market with no script before its lines.
fn open_bare<H: Shelf>(alloc: Global, shelf: &mut H, market: &str) -> Result<ScriptRun, Status>
    ensures reads { Reads status_end run_in (run_for market.now None) (market_calls market.now)
        (seen (H.contents shelf.old) (H.faults shelf.old) (H.misses shelf.old) (H.calls shelf.old))
        (seen (H.contents shelf.new) (H.faults shelf.new) (H.misses shelf.new) (H.calls shelf.new)) result }
    ensures there { IfSome (files_of (H.contents shelf.old)) (λ files. IsErrOf result Status.NoMemory → IsSome (file_at files market.now)) }
    ensures whole { IfOk result CanRun }
    ensures refused { IfErr result IsRefusal }
{
    match open_market(alloc, market, shelf) {
        Ok(market) => Ok(bare(alloc, market)),
        Err(status) => Err(Status::from(status)),
    }
}

// A market, and the script that has no line.
fn bare(alloc: Global, market: OpenMarket) -> ScriptRun
    requires ready { IsReady market.names market.made.items }
    ensures bare { run_in result ≡ bare (market_in market) }
    ensures whole { CanRun result }
{
    // Names are distinct, and no more than there may be.
    let _ = market.names.len();
    ScriptRun {
        market,
        script: no_script(alloc),
    }
}

// The script that has no line.
fn no_script(alloc: Global) -> Script
    ensures { result ≡ no_script }
{
    Script {
        actions: Actions::new(alloc),
        commands: CommandList::new(alloc),
        action_names: NameList::new(alloc),
    }
}
