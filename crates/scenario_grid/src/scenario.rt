// One scenario.
ghost use Rattle.std.specs.Prelude.{◌≡◌, ◌++◌, true, length, All, OnOk, OnErr};
ghost use Rattle.desk_terms.specs.Bench.{counted, logged};
ghost use Rattle.market_file.specs.Standing.{IsReady};
ghost use Rattle.session_commands.specs.Whole.{IsCommand};
ghost use Rattle.session_rounds.specs.Goes.{Halts, with_more};
ghost use Rattle.watch_rounds.specs.declared.picker.Order.{Order as OfOrder};
ghost use Rattle.tool_script.specs.Kinds.{is_move, is_ask};
ghost use Rattle.tool_script.specs.Scenario.{first_of, scenario_lines, scenario_calls, scenario_values};
ghost use Rattle.tool_script.specs.Basis.{basis_in};
ghost use Rattle.tool_frame.specs.Calls.{Begins};
ghost use Rattle.tool_script.specs.Course.{course_of, output};
ghost use Rattle.tool_script.specs.Going.{Extends};
ghost use Rattle.scenario_grid.specs.Scenario.{scenario_of};

use desk_names::Names;
use desk_terms::Bench;
use market_file::Market;
use session_commands::{Command, CommandList};
use std::alloc::{AllocError, Global};
use tool_script::{MoneyList, begun, move_and_ask};

/// Does a scenario in a session of its own, of a copy of the market's objects under these names: the moves, and then the
/// asks. The lines are appended to `lines`, and to `values` for each ask the money that it shows. The market, the names and
/// the commands are read alone, so that the next scenario has the same market. One session stands at a time.
///
/// It fails for want of memory alone, and then lines and values are as before.
pub fn one_scenario<B: Bench>(
    alloc: Global,
    market: &Market,
    names: &Names,
    moves: &CommandList,
    asks: &CommandList,
    bench: &mut B,
    lines: &mut Vec<u8>,
    values: &mut MoneyList,
) -> Result<(), AllocError>
    requires ready { IsReady names.now market.now.made.items }
    requires moves { All (λ c. is_move c ≡ true) moves.now }
    requires asks { All (λ c. is_ask c ≡ true) asks.now }
    requires known { All (IsCommand (length names.now) 0) moves.now }
    requires named { All (IsCommand (length names.now) 0) asks.now }
    ensures same { B.calc bench.new ≡ B.calc bench.old }

    // The lines and the values are those of the scenario on the basis of the market.
    ensures lines { OnOk result (lines.new.items ≡ lines.old.items
        ++ scenario_lines (B.calc bench.old) (basis_in market.now names.now) asks.now (scenario_of moves.now)) }
    ensures values { OnOk result (values.new ≡ values.old
        ++ scenario_values (B.calc bench.old) (basis_in market.now names.now) asks.now (scenario_of moves.now)) }

    // The bench was called for its computations, in their order, and for no other; where memory ran out, for a front of them.
    ensures count { OnOk result (B.count bench.new ≡ counted (B.count bench.old)
        (length (scenario_calls (B.calc bench.old) (basis_in market.now names.now) asks.now (scenario_of moves.now)))) }
    ensures log { OnOk result (B.log bench.new ≡ logged (B.log bench.old)
        (scenario_calls (B.calc bench.old) (basis_in market.now names.now) asks.now (scenario_of moves.now))) }
    ensures begins { OnErr result (Begins (scenario_calls (B.calc bench.old) (basis_in market.now names.now) asks.now (scenario_of moves.now))
        (B.count bench.old) (B.count bench.new) (B.log bench.old) (B.log bench.new)) }

    // After want of memory nothing is left of it.
    ensures no_lines { OnErr result (lines.new.items ≡ lines.old.items) }
    ensures no_values { OnErr result (values.new ≡ values.old) }
{
    let lines_before = lines.len();
    let values_before = values.len();
    match played(
        alloc,
        market,
        names,
        moves.items(),
        asks.items(),
        bench,
        lines,
        values,
    ) {
        Ok(()) => Ok(()),
        Err(fault) => {
            lines.truncate(lines_before);
            values.truncate(values_before);
            Err(fault)
        }
    }
}

// The same, where what was appended before memory ran out is left.
fn played<B: Bench>(
    alloc: Global,
    market: &Market,
    names: &Names,
    moves: &[Command],
    asks: &[Command],
    bench: &mut B,
    lines: &mut Vec<u8>,
    values: &mut MoneyList,
) -> Result<(), AllocError>
    requires ready { IsReady names.now market.now.made.items }
    requires moves { All (λ c. is_move c ≡ true) moves.now }
    requires asks { All (λ c. is_ask c ≡ true) asks.now }
    requires known { All (IsCommand (length names.now) 0) moves.now }
    requires named { All (IsCommand (length names.now) 0) asks.now }
    ensures same { B.calc bench.new ≡ B.calc bench.old }
    ensures out { OnOk result (output lines.new.items (B.count bench.new) (B.log bench.new)
        ≡ with_more (scenario_lines (B.calc bench.old) (basis_in market.now names.now) asks.now (scenario_of moves.now))
        (scenario_calls (B.calc bench.old) (basis_in market.now names.now) asks.now (scenario_of moves.now))
        (output lines.old.items (B.count bench.old) (B.log bench.old))) }
    ensures values { OnOk result (values.new ≡ values.old
        ++ scenario_values (B.calc bench.old) (basis_in market.now names.now) asks.now (scenario_of moves.now)) }
    ensures halts { OnErr result (Halts OfOrder
        (course_of (B.calc bench.old) (moves.now ++ asks.now) (first_of (basis_in market.now names.now)))
        (output lines.old.items (B.count bench.old) (B.log bench.old))
        (output lines.new.items (B.count bench.new) (B.log bench.new))) }
    ensures kept { Extends values.old values.new }
{
    let mut session = begun(alloc, market, names)?;
    move_and_ask(&mut session, moves, asks, bench, lines, values)
}
