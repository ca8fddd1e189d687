// A session is opened from texts.
ghost use Rattle.std.specs.Prelude.{◌≡◌, false, All, IfOk, IfErr};
ghost use Rattle.tool_script.specs.Refusals.{script_status};
ghost use Rattle.tool_script.specs.declared.status.Status.TheVariants.{NoMemory};
ghost use Rattle.live_model.specs.Log.{done};
ghost use Rattle.pricing_session.specs.Speaking.{as_live};
ghost use Rattle.session_model.specs.Rounds.{transcript};
ghost use Rattle.session_model.specs.Standing.{IsKnown};
ghost use Rattle.desk_c.specs.Calls.{ordered};
ghost use Rattle.desk_c.specs.Orders.{order_in};
ghost use Rattle.desk_c.specs.Opening.{Opens, FailsToOpen};

use crate::kept::Kept;
use crate::playing::play_all;
use crate::tables::market_status;
use desk_bench::DeskBench;
use desk_names::Names;
use market_file::{Market, read_market};
use pricing_session::{LiveSession, NamedMarket};
use session_commands::Command;
use session_lang::ScriptFault;
use std::alloc::Global;
use tool_script::Status;
use watch_rounds::Order;

// The order that a number and a seed name.
pub(crate) fn order_of(order: u32, seed: u64) -> Option<Order>
    ensures { result ≡ order_in order seed }
{
    match order {
        0 => Some(Order::First),
        1 => Some(Order::Last),
        2 => Some(Order::Seed(seed)),
        _ => None,
    }
}

// The session of a market's texts behind the commands of a script, with what these wrote.
pub(crate) fn opened(
    alloc: Global,
    market: &[u8],
    quotes: &[u8],
    fixings: &[u8],
    script: &[u8],
    order: Order,
) -> Result<Box<Kept>, Status>
    ensures opens { IfOk result (λ kept. Opens order market.now quotes.now fixings.now script.now kept.value) }
    ensures fails { IfErr result (FailsToOpen order market.now quotes.now fixings.now script.now) }
{
    let mut names = Names::new(alloc);
    let market = match read_market(alloc, market, quotes, fixings, &mut names) {
        Ok(market) => market,
        Err(fault) => return Err(market_status(fault)),
    };
    let Market { today, made } = market;
    let named = NamedMarket { names, today, made };
    match LiveSession::open(alloc, named, script, order, DeskBench::new()) {
        Ok((session, commands)) => played(alloc, session, commands.items()),
        Err(fault) => Err(script_status(fault)),
    }
}

fn script_status(fault: ScriptFault) -> Status
    ensures { result ≡ script_status fault }
{
    match fault {
        ScriptFault::At { line, kind } => Status::Script(line, kind),
        ScriptFault::NoMemory => Status::NoMemory,
    }
}

// A session behind these commands, with what they wrote.
fn played(
    alloc: Global,
    session: LiveSession<Order, DeskBench>,
    commands: &[Command],
) -> Result<Box<Kept>, Status>
    requires running { session.running.standing.stopped ≡ false }
    requires known { All (IsKnown session.running.standing) commands.now }
    ensures live { IfOk result (λ kept. as_live kept.value.session
        ≡ record (as_live session) { running = done ordered session.running commands.now }) }
    ensures text { IfOk result (λ kept. kept.value.text.items ≡ transcript ordered session.running commands.now) }
    ensures memory { IfErr result (λ status. status ≡ NoMemory) }
{
    let mut kept = Kept {
        session,
        text: Vec::new(alloc),
    };
    match play_all(&mut kept.session, commands, &mut kept.text) {
        Ok(()) => match Box::new(alloc, kept) {
            Ok(kept) => Ok(kept),
            Err(_) => Err(Status::NoMemory),
        },
        Err(_) => Err(Status::NoMemory),
    }
}
