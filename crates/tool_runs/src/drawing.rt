// The graph of what is wanted.
ghost use Rattle.std.specs.Prelude.{◌≡◌, false, All, IfOk};
ghost use Rattle.desk_model.specs.Sound.{IsSound};
ghost use Rattle.session_model.specs.Standing.{IsKnown};
ghost use Rattle.session_model.specs.Rounds.{calls_of};
ghost use Rattle.tool_script.specs.Scenario.{ordered, after};
ghost use Rattle.session_graph.specs.Graph.{session_graph};
ghost use Rattle.tool_script.specs.Found.{CanRun, run_in};
ghost use Rattle.tool_frame.specs.Calls.{Calls};
ghost use Rattle.tool_runs.specs.Drawing.{output_in, computed_in};

use desk_terms::Bench;
use market_session::begun;
use session_commands::Command;
use session_graph::session_graph;
use session_rounds::WatchedSession;
use std::alloc::{AllocError, Global};
use tool_script::{ScriptRun, play_all};
use watch_rounds::Order;

// The graph of the session of a script behind its last command.
pub(crate) fn text_of<B: Bench>(
    alloc: Global,
    run: ScriptRun,
    bench: &mut B,
) -> Result<Vec<u8>, AllocError>
    requires can { CanRun run }
    ensures text { IfOk result (λ text. text.items ≡ output_in (B.calc bench.old) (run_in run)) }
    ensures calls { Calls (computed_in (B.calc bench.old) (run_in run)) result
        (B.count bench.old) (B.count bench.new) (B.log bench.old) (B.log bench.new) }
    ensures same { B.calc bench.new ≡ B.calc bench.old }
{
    let (mut session, commands) = begun(
        alloc,
        run.market.names,
        run.market.today,
        run.market.made,
        run.script,
        Order::First,
    )?;
    graph_behind(alloc, &mut session, commands.items(), bench)
}

// The graph of a session behind these commands. It has the session lent: a function that owns one lets it go at each exit.
fn graph_behind<B: Bench>(
    alloc: Global,
    session: &mut WatchedSession<Order>,
    commands: &[Command],
    bench: &mut B,
) -> Result<Vec<u8>, AllocError>
    requires running { session.old.standing.stopped ≡ false }
    requires known { All (IsKnown session.old.standing) commands.now }
    requires sound { IsSound (B.calc bench.old) session.old.standing.state }
    ensures text { IfOk result (λ text. text.items ≡ session_graph (after (B.calc bench.old) commands.now session.old).standing) }
    ensures calls { Calls (calls_of (ordered (B.calc bench.old)) session.old commands.now) result
        (B.count bench.old) (B.count bench.new) (B.log bench.old) (B.log bench.new) }
    ensures same { B.calc bench.new ≡ B.calc bench.old }
{
    play_all(alloc, session, commands, bench)?;
    let mut text = Vec::new(alloc);
    session_graph(alloc, session, &mut text)?;
    Ok(text)
}
