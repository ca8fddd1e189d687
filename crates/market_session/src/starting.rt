// A session of a market's objects for the commands of a script, before the first of them.
ghost use Rattle.std.specs.Prelude.{◌≡◌, false, length, All, IfOk};
ghost use Rattle.desk_terms.specs.Reading.{Calc};
ghost use Rattle.desk_model.specs.Sound.{IsSound};
ghost use Rattle.market_file.specs.Standing.{IsReady};
ghost use Rattle.session_commands.specs.Whole.{IsCommand, IsScript};
ghost use Rattle.session_model.specs.Standing.{IsKnown, start_with};
ghost use Rattle.session_model.specs.Course.{running};

use crate::making::session_of;
use day_number::Day;
use desk_names::Names;
use market_file::MadeList;
use session_commands::{Actions, CommandList, Script};
use session_rounds::WatchedSession;
use std::alloc::{AllocError, Global};
use watch_rounds::Picker;

/// The session of a market's objects with these names and these actions, in which due watchers run as they are picked.
/// Nothing is computed. It fails for want of memory alone.
pub fn watched_session<P: Picker + Drop>(
    alloc: Global,
    names: Names,
    today: Day,
    made: MadeList,
    actions: Actions,
    picker: P,
) -> Result<WatchedSession<P>, AllocError>
    requires ready { IsReady names made.items }
    requires acting { All (λ block. All (IsCommand (length names) (length actions)) block) actions }
    ensures begins { IfOk result (λ session. session ≡ running picker (start_with today names made.items actions)) }
    ensures running { IfOk result (λ session. session.standing.stopped ≡ false) }
    ensures names { IfOk result (λ session. session.standing.names ≡ names) }
    ensures actions { IfOk result (λ session. session.standing.actions ≡ actions) }
    ensures sound { IfOk result (λ session. (calc : Calc) → IsSound calc session.standing.state) }
{
    let session = session_of(alloc, names, today, made, actions)?;
    let session = WatchedSession::new(alloc, session, picker)?;
    Ok(session)
}

/// The same with the actions of a script, and the commands of the script outside of its blocks, none of which is done yet.
/// All that a step wants of its session and its command holds of it: it goes on, it knows each of these commands, and it is
/// sound for every bench.
pub fn begun<P: Picker + Drop>(
    alloc: Global,
    names: Names,
    today: Day,
    made: MadeList,
    script: Script,
    picker: P,
) -> Result<(WatchedSession<P>, CommandList), AllocError>
    requires ready { IsReady names made.items }
    requires whole { IsScript names script }
    ensures session { IfOk result (λ begun. begun.0 ≡ running picker (start_with today names made.items script.actions)) }
    ensures commands { IfOk result (λ begun. begun.1 ≡ script.commands) }
    ensures running { IfOk result (λ begun. begun.0.standing.stopped ≡ false) }
    ensures known { IfOk result (λ begun. All (IsKnown begun.0.standing) begun.1) }
    ensures sound { IfOk result (λ begun. (calc : Calc) → IsSound calc begun.0.standing.state) }
{
    let session = watched_session(alloc, names, today, made, script.actions, picker)?;
    Ok((session, script.commands))
}
