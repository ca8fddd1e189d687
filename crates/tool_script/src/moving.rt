// The moves of a block.
ghost use Rattle.std.specs.Prelude.{◌≡◌, true, All, OnOk, OnErr};
ghost use Rattle.session_model.specs.Standing.{IsKnown};
ghost use Rattle.session_rounds.specs.Goes.{Does, Halts};
ghost use Rattle.watch_rounds.specs.declared.picker.Order.{Order as OfOrder};
ghost use Rattle.tool_script.specs.Kinds.{is_move};
ghost use Rattle.tool_script.specs.Course.{course_of, output};
ghost use Rattle.tool_script.specs.Going.{IsGoing};

use desk_terms::Bench;
use session_commands::Command;
use session_rounds::WatchedSession;
use std::alloc::AllocError;
use watch_rounds::Order;

// Does the round of each move.
pub(crate) fn move_all<B: Bench>(
    session: &mut WatchedSession<Order>,
    moves: &[Command],
    bench: &mut B,
    lines: &mut Vec<u8>,
) -> Result<(), AllocError>
    requires going { IsGoing (B.calc bench.old) session.old }
    requires known { All (IsKnown session.old.standing) moves.now }
    requires moves { All (λ c. is_move c ≡ true) moves.now }
    ensures same { B.calc bench.new ≡ B.calc bench.old }
    ensures does { OnOk result (Does OfOrder (course_of (B.calc bench.old) moves.now session.old) session.new
        (output lines.old.items (B.count bench.old) (B.log bench.old))
        (output lines.new.items (B.count bench.new) (B.log bench.new))) }
    ensures halts { OnErr result (Halts OfOrder (course_of (B.calc bench.old) moves.now session.old)
        (output lines.old.items (B.count bench.old) (B.log bench.old))
        (output lines.new.items (B.count bench.new) (B.log bench.new))) }
    ensures going { OnOk result (IsGoing (B.calc bench.old) session.new) }
    ensures names { OnOk result (session.new.standing.names ≡ session.old.standing.names) }
{
    for command in moves {
        session.step(command, bench, lines)?;
    }
    Ok(())
}
