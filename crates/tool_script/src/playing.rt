// The rounds of a script whose lines are let go.
ghost use Rattle.std.specs.Prelude.{◌≡◌, true, false, All, OnOk, OnErr};
ghost use Rattle.desk_model.specs.Sound.{IsSound};
ghost use Rattle.session_model.specs.Standing.{IsKnown};
ghost use Rattle.session_model.specs.Rounds.{calls_of};
ghost use Rattle.tool_script.specs.Scenario.{ordered, after};
ghost use Rattle.tool_frame.specs.Calls.{Calls};

use desk_terms::Bench;
use session_commands::Command;
use session_rounds::WatchedSession;
use std::alloc::{AllocError, Global};
use watch_rounds::Order;

/// Does the round of each command in order over a session, and lets its lines go: what is wanted is the session behind the last
/// command. The bench is called for the computations of the rounds, in their order, and for no other; where memory ran out,
/// for a front of them. It fails for want of memory alone, and the session is then stopped.
pub fn play_all<B: Bench>(
    alloc: Global,
    session: &mut WatchedSession<Order>,
    commands: &[Command],
    bench: &mut B,
) -> Result<(), AllocError>
    requires running { session.old.standing.stopped ≡ false }
    requires known { All (IsKnown session.old.standing) commands.now }
    requires sound { IsSound (B.calc bench.old) session.old.standing.state }
    ensures same { B.calc bench.new ≡ B.calc bench.old }
    ensures after { OnOk result (session.new ≡ after (B.calc bench.old) commands.now session.old) }
    ensures stopped { OnErr result (session.new.standing.stopped ≡ true) }
    ensures sound { IsSound (B.calc bench.old) session.new.standing.state }
    ensures calls { Calls (calls_of (ordered (B.calc bench.old)) session.old commands.now) result
        (B.count bench.old) (B.count bench.new) (B.log bench.old) (B.log bench.new) }
{
    let mut lines = Vec::new(alloc);
    for command in commands {
        lines.clear();
        session.step(command, bench, &mut lines)?;
    }
    Ok(())
}
