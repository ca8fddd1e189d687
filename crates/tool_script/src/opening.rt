// The session of a script of blocks before its first move.
ghost use Rattle.std.specs.Prelude.{◌≡◌, IfOk};
ghost use Rattle.desk_terms.specs.Reading.{Calc};
ghost use Rattle.market_file.specs.Standing.{IsReady};
ghost use Rattle.tool_script.specs.Scenario.{first_of};
ghost use Rattle.tool_script.specs.Basis.{basis_in};
ghost use Rattle.tool_script.specs.Going.{IsGoing};

use desk_names::Names;
use market_file::Market;
use market_session::watched_session;
use session_commands::Actions;
use session_rounds::WatchedSession;
use std::alloc::{AllocError, Global};
use terms_copy::copy_made;
use watch_rounds::Order;

/// A session of a copy of the market's objects, under these names. It has no action, and nothing is computed.
///
/// It fails for want of memory alone.
pub fn begun(
    alloc: Global,
    market: &Market,
    names: &Names,
) -> Result<WatchedSession<Order>, AllocError>
    requires ready { IsReady names.now market.now.made.items }
    ensures begins { IfOk result (λ session. session ≡ first_of (basis_in market.now names.now)) }
    ensures going { IfOk result (λ session. (calc : Calc) → IsGoing calc session) }
{
    let made = copy_made(alloc, market.made.as_slice())?;
    let names = names.copy(alloc)?;
    let actions = Actions::new(alloc);
    let session = watched_session(alloc, names, market.today, made, actions, Order::First)?;
    Ok(session)
}
