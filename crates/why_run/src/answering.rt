// The answer to what is wanted.
ghost use Rattle.std.specs.Prelude.{◌≡◌, ◌++◌, false, All, IfOk};
ghost use Rattle.desk_model.specs.Sound.{IsSound};
ghost use Rattle.desk_model.specs.Visit.{log_of};
ghost use Rattle.session_model.specs.Rounds.{calls_of};
ghost use Rattle.session_model.specs.Standing.{IsKnown};
ghost use Rattle.tool_script.specs.Scenario.{ordered, after};
ghost use Rattle.why_model.specs.Answer.{why_text};
ghost use Rattle.session_why.specs.Computed.{why_asking};
ghost use Rattle.tool_script.specs.Asking.{found_in};
ghost use Rattle.tool_script.specs.Found.{CanRun};
ghost use Rattle.tool_frame.specs.Calls.{Calls};
ghost use Rattle.why_run.specs.Answering.{output_in, computed_in, refuses_in, refuses_name};
ghost use Rattle.why_run.specs.Words.{triple_in};

use crate::words::Triple;
use desk_terms::Bench;
use market_session::begun;
use session_commands::Command;
use session_rounds::WatchedSession;
use session_why::why;
use std::alloc::{AllocError, Global};
use tool_frame::NamedText;
use tool_script::{FoundRun, play_all};
use watch_rounds::Order;

// The answer for a name over the session of a script behind its last command.
pub(crate) fn text_of<B: Bench>(
    alloc: Global,
    found: FoundRun<Triple<'_>>,
    bench: &mut B,
) -> Result<NamedText, AllocError>
    requires can { CanRun found.run }
    ensures text { IfOk result (λ text. text.text.items ≡ output_in (B.calc bench.old) (found_in triple_in found.entry)) }
    ensures refuses { IfOk result (λ text. text.refuses ≡ refuses_in (B.calc bench.old) (found_in triple_in found.entry)) }
    ensures calls { Calls (computed_in (B.calc bench.old) (found_in triple_in found.entry)) result
        (B.count bench.old) (B.count bench.new) (B.log bench.old) (B.log bench.new) }
    ensures same { B.calc bench.new ≡ B.calc bench.old }
{
    let FoundRun { run, request } = found;
    let (mut session, commands) = begun(
        alloc,
        run.market.names,
        run.market.today,
        run.market.made,
        run.script,
        Order::First,
    )?;
    answer_behind(
        alloc,
        &mut session,
        commands.items(),
        request.name.as_bytes(),
        bench,
    )
}

// The answer for a name over a session behind these commands. It has the session lent: a function that owns one lets it go at
// each exit.
fn answer_behind<B: Bench>(
    alloc: Global,
    session: &mut WatchedSession<Order>,
    commands: &[Command],
    name: &[u8],
    bench: &mut B,
) -> Result<NamedText, AllocError>
    requires running { session.old.standing.stopped ≡ false }
    requires known { All (IsKnown session.old.standing) commands.now }
    requires sound { IsSound (B.calc bench.old) session.old.standing.state }
    ensures text { IfOk result (λ text. text.text.items
        ≡ why_text (B.calc bench.old) (after (B.calc bench.old) commands.now session.old).standing name.now) }
    ensures refuses { IfOk result (λ text. text.refuses
        ≡ refuses_name (after (B.calc bench.old) commands.now session.old).standing name.now) }
    ensures calls { Calls (calls_of (ordered (B.calc bench.old)) session.old commands.now
        ++ log_of (why_asking (B.calc bench.old) (after (B.calc bench.old) commands.now session.old).standing name.now).calls) result
        (B.count bench.old) (B.count bench.new) (B.log bench.old) (B.log bench.new) }
    ensures same { B.calc bench.new ≡ B.calc bench.old }
{
    play_all(alloc, session, commands, bench)?;
    let refuses = refuses_name(session, name);
    let text = why(alloc, session, name, bench)?;
    Ok(NamedText { text, refuses })
}

// Whether no priced object of a session has a name.
fn refuses_name(session: &WatchedSession<Order>, name: &[u8]) -> bool
    ensures { result ≡ refuses_name session.now.standing name.now }
{
    let session = session.session();
    match session.names().find(name) {
        Some(name) => session.priced(name).is_err(),
        None => true,
    }
}
