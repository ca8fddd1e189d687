// The moves of a block, and then what is asked for.
ghost use Rattle.std.specs.Prelude.{◌≡◌, ◌++◌, true, All, OnOk, OnErr};
ghost use Rattle.session_model.specs.Standing.{IsKnown};
ghost use Rattle.session_model.specs.Rounds.{transcript, calls_of};
ghost use Rattle.session_rounds.specs.Goes.{Halts, with_more};
ghost use Rattle.watch_rounds.specs.declared.picker.Order.{Order as OfOrder};
ghost use Rattle.tool_script.specs.Kinds.{is_move, is_ask};
ghost use Rattle.tool_script.specs.Scenario.{ordered, after, values_of};
ghost use Rattle.tool_script.specs.Course.{course_of, output};
ghost use Rattle.tool_script.specs.Going.{IsGoing, Extends};

use crate::asking::ask_all;
use crate::moving::move_all;
use desk_terms::Bench;
use fixed_amount::Amount;
use item_lists::Items;
use session_commands::Command;
use session_rounds::WatchedSession;
use std::alloc::AllocError;
use watch_rounds::Order;

/// The money that each ask shows, in order; none where an ask shows none. A clause sees the list.
pub type MoneyList = Items<Option<Amount>>;

/// Does the moves and then the asks over a session that is lent: who owns one lets it go at each exit, which is much to prove
/// where there are many. The lines are appended to `lines`, and to `values` for each ask the money that it shows.
///
/// It fails for want of memory alone; a front of the lines and of the values is then left.
pub fn move_and_ask<B: Bench>(
    session: &mut WatchedSession<Order>,
    moves: &[Command],
    asks: &[Command],
    bench: &mut B,
    lines: &mut Vec<u8>,
    values: &mut MoneyList,
) -> Result<(), AllocError>
    requires going { IsGoing (B.calc bench.old) session.old }
    requires known { All (IsKnown session.old.standing) moves.now }
    requires named { All (IsKnown session.old.standing) asks.now }
    requires moves { All (λ c. is_move c ≡ true) moves.now }
    requires asks { All (λ c. is_ask c ≡ true) asks.now }
    ensures same { B.calc bench.new ≡ B.calc bench.old }
    ensures out { OnOk result (output lines.new.items (B.count bench.new) (B.log bench.new)
        ≡ with_more (transcript (ordered (B.calc bench.old)) session.old (moves.now ++ asks.now))
        (calls_of (ordered (B.calc bench.old)) session.old (moves.now ++ asks.now))
        (output lines.old.items (B.count bench.old) (B.log bench.old))) }
    ensures values { OnOk result (values.new ≡ values.old ++ values_of (B.calc bench.old) asks.now (after (B.calc bench.old) moves.now session.old)) }
    // The session is the one behind these commands, and the next may begin in it.
    ensures next { OnOk result (session.new ≡ after (B.calc bench.old) (moves.now ++ asks.now) session.old) }
    ensures going { OnOk result (IsGoing (B.calc bench.old) session.new) }
    ensures names { OnOk result (session.new.standing.names ≡ session.old.standing.names) }
    ensures halts { OnErr result (Halts OfOrder (course_of (B.calc bench.old) (moves.now ++ asks.now) session.old)
        (output lines.old.items (B.count bench.old) (B.log bench.old))
        (output lines.new.items (B.count bench.new) (B.log bench.new))) }
    ensures kept { Extends values.old values.new }
{
    move_all(session, moves, bench, lines)?;
    ask_all(session, asks, bench, lines, values)?;
    Ok(())
}
