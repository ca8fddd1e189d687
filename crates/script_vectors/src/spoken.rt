// Scripts that are said line by line: each line of a script is said to a session of its market, which must write what `run`
// shows, where the script has no fault and each of its actions begins before the first line that names it.
ghost use Rattle.std.specs.Prelude.{IfSome};
ghost use Rattle.market_file.specs.Standing.{IsReady};

use crate::FILES;
use crate::cases::{Cases, counted};
use crate::wholes::Told;
use desk_bench::DeskBench;
use desk_edge::Shelf;
use desk_names::Names;
use desk_words::order_of;
use live_session::SayFault;
use market_loader::{load_file, load_market};
use pricing_session::{LiveSession, NamedMarket};
use script_words::next_line;
use session_commands::Command;
use std::alloc::{AllocError, Global};
use std::io;
use watch_rounds::Order;

/// What lines are said to.
pub(crate) type Session = LiveSession<Order, DeskBench>;

// Prints how many cases of each file are said alike. Otherwise is one whose script has a fault or an action that begins
// behind a line that names it, whose market is not read, or whose words ask for something else.
pub(crate) fn compare(rt: &HostRuntime) -> io::Result<()> {
    for file in FILES {
        compare_file(rt, file)?;
    }
    Ok(())
}

// Prints how many cases of a file are said alike.
fn compare_file(rt: &HostRuntime, file: &str) -> io::Result<()> {
    let (alike, otherwise) = counted(rt, Cases::Told(Told::Said), file)?;
    println!(rt; "{file} said: {alike} alike, {otherwise} otherwise")
}

/// Whether the lines of the script that these words name are said alike.
pub(crate) fn says<H: Shelf>(
    alloc: Global,
    words: &[String],
    shelf: &mut H,
    wanted: &[u8],
) -> Result<bool, AllocError> {
    match words {
        [_, market, script] => says_in(alloc, market, script, Order::First, shelf, wanted),
        [_, market, script, _, order] => match order_of(order) {
            Some(order) => says_in(alloc, market, script, order, shelf, wanted),
            None => Ok(false),
        },
        _ => Ok(false),
    }
}

// The same of a script over a market, in an order.
fn says_in<H: Shelf>(
    alloc: Global,
    market: &str,
    script: &str,
    order: Order,
    shelf: &mut H,
    wanted: &[u8],
) -> Result<bool, AllocError> {
    let Ok(text) = load_file(alloc, script, shelf) else {
        return Ok(false);
    };
    let mut out = Vec::new(alloc);
    match opened(alloc, market, order, None, shelf, &mut out)? {
        Some(mut session) => {
            let said = say_all(&mut session, &text, &mut out).is_ok();
            Ok(said && out.as_slice() == wanted)
        }
        None => Ok(false),
    }
}

/// The session of a market, and behind the commands of a script, where one is given, whose lines are appended; none where the market or the
/// script is not read.
pub(crate) fn opened<H: Shelf>(
    alloc: Global,
    path: &str,
    order: Order,
    script: Option<&[u8]>,
    shelf: &mut H,
    out: &mut Vec<u8>,
) -> Result<Option<Session>, AllocError> {
    let Some(market) = market_of(alloc, path, shelf) else {
        return Ok(None);
    };
    match script {
        Some(script) => Ok(behind(alloc, market, order, script, out)),
        None => Ok(Some(LiveSession::new(alloc, market, order, DeskBench::new())?)),
    }
}

// A market with its tables; none where it is not read.
fn market_of<H: Shelf>(alloc: Global, path: &str, shelf: &mut H) -> Option<NamedMarket>
    ensures { IfSome result (λ market. IsReady market.names market.made.items) }
{
    let mut names = Names::new(alloc);
    match load_market(alloc, path, shelf, &mut names) {
        Ok(market) => Some(NamedMarket {
            names,
            today: market.today,
            made: market.made,
        }),
        Err(_) => None,
    }
}

// The session of a market behind the commands of a script.
fn behind(
    alloc: Global,
    market: NamedMarket,
    order: Order,
    script: &[u8],
    out: &mut Vec<u8>,
) -> Option<Session>
    requires { IsReady market.names market.made.items }
{
    match LiveSession::open(alloc, market, script, order, DeskBench::new()) {
        Ok((mut session, commands)) => {
            if does_all(&mut session, commands.items(), out) {
                Some(session)
            } else {
                None
            }
        }
        Err(_) => None,
    }
}

// Does commands, one after the other, up to one that is not done for want of memory; whether all were done.
fn does_all(session: &mut Session, commands: &[Command], out: &mut Vec<u8>) -> bool {
    for command in commands {
        if session.step(command, out).is_err() {
            return false;
        }
    }
    true
}

/// Says lines, one after the other.
pub(crate) fn say_all(
    session: &mut Session,
    said: &[u8],
    out: &mut Vec<u8>,
) -> Result<(), SayFault> {
    let mut rest = said;
    while !rest.is_empty() {
        let (line, after) = next_line(rest);
        rest = after;
        session.say(line, out)?;
    }
    Ok(())
}
