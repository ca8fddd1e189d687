// The commands of a script.
ghost use Rattle.std.specs.Prelude.{◌≡◌, ◌++◌, false, All, IfErr, OnOk};
ghost use Rattle.live_model.specs.Log.{done};
ghost use Rattle.pricing_session.specs.declared.fault.StepFault.TheVariants.{NoMemory};
ghost use Rattle.pricing_session.specs.Speaking.{as_live};
ghost use Rattle.session_model.specs.Rounds.{transcript};
ghost use Rattle.session_model.specs.Standing.{IsKnown};
ghost use Rattle.desk_c.specs.Calls.{ordered};

use desk_bench::DeskBench;
use pricing_session::{LiveSession, StepFault};
use session_commands::Command;
use watch_rounds::Order;

// Does the round of each command in order, and appends their lines. It fails for want of memory alone.
pub(crate) fn play_all(
    session: &mut LiveSession<Order, DeskBench>,
    commands: &[Command],
    text: &mut Vec<u8>,
) -> Result<(), StepFault>
    requires running { session.old.running.standing.stopped ≡ false }
    requires known { All (IsKnown session.old.running.standing) commands.now }
    ensures plays { OnOk result (as_live session.new ≡ record (as_live session.old) { running = done ordered session.old.running commands.now }) }
    ensures text { OnOk result (text.new.items ≡ text.old.items ++ transcript ordered session.old.running commands.now) }
    ensures memory { IfErr result (λ fault. fault ≡ NoMemory) }
{
    for command in commands {
        match session.step(command, text) {
            Ok(()) => {}
            Err(fault) => return Err(fault),
        }
    }
    Ok(())
}
