// The lines of a grid.
ghost use Rattle.std.specs.Prelude.{◌≡◌, ◌++◌, ◌∷◌, [], true, length, All, IfOk, OnOk};
ghost use Rattle.market_file.specs.Standing.{IsReady};
ghost use Rattle.session_commands.specs.Whole.{IsCommand, IsScript};
ghost use Rattle.tool_script.specs.Kinds.{is_move, is_ask};
ghost use Rattle.tool_script.specs.ShapeLaws.{IsTaken};
ghost use Rattle.tool_script.specs.Grid.{grid, grid_calls, scenarios_of, scenario_texts, rows_of, scenario_text};
ghost use Rattle.tool_script.specs.Scenario.{scenario_lines, scenario_calls, scenario_values};
ghost use Rattle.tool_script.specs.Shown.{rows_in};
ghost use Rattle.tool_script.specs.Basis.{basis_in};
ghost use Rattle.tool_script.specs.Block.{block_of};
ghost use Rattle.tool_frame.specs.Calls.{Calls};
ghost use Rattle.scenario_grid.specs.Scenario.{row_of, scenario_of};

use crate::one_scenario;
use desk_names::{NameId, Names};
use desk_terms::Bench;
use item_lists::Items;
use market_file::Market;
use session_commands::{CommandList, Script};
use std::alloc::{AllocError, Global};
use tool_script::{MoneyList, Shown, heading, worst_lines};

/// The lines of a grid: those of the scenario without moves and of each block of the script, and then for each ask of the
/// script the line of its worst. Each scenario has a session of its own, of a copy of the market's objects; one stands at a
/// time.
///
/// It fails for want of memory alone.
pub fn grid_lines<B: Bench>(
    alloc: Global,
    market: &Market,
    names: &Names,
    script: &Script,
    bench: &mut B,
) -> Result<Vec<u8>, AllocError>
    requires ready { IsReady names.now market.now.made.items }
    requires whole { IsScript names.now script.now }
    requires taken { IsTaken script.now }
    ensures same { B.calc bench.new ≡ B.calc bench.old }
    ensures lines { IfOk result (λ lines. lines.items ≡ grid (B.calc bench.old) (basis_in market.now names.now) script.now) }
    // The bench was called for the computations of all scenarios, in their order, and for no other; where memory ran out,
    // for a front of them.
    ensures calls { Calls (grid_calls (B.calc bench.old) (basis_in market.now names.now) script.now) result
        (B.count bench.old) (B.count bench.new) (B.log bench.old) (B.log bench.new) }
{
    let mut lines = Vec::new(alloc);
    let rows = all_scenarios(alloc, market, names, script, bench, &mut lines)?;
    worst_lines(
        alloc,
        names,
        rows.items(),
        script.commands.items(),
        &mut lines,
    )?;
    Ok(lines)
}

// Appends the lines of each scenario, and gives what each of them shows.
fn all_scenarios<B: Bench>(
    alloc: Global,
    market: &Market,
    names: &Names,
    script: &Script,
    bench: &mut B,
    lines: &mut Vec<u8>,
) -> Result<Items<Shown>, AllocError>
    requires ready { IsReady names.now market.now.made.items }
    requires whole { IsScript names.now script.now }
    requires taken { IsTaken script.now }
    ensures same { B.calc bench.new ≡ B.calc bench.old }
    ensures lines { OnOk result (lines.new.items ≡ lines.old.items
        ++ scenario_texts (B.calc bench.old) (basis_in market.now names.now) script.now.commands (scenarios_of script.now)) }
    ensures rows { IfOk result (λ rows. rows_in rows
        ≡ rows_of (B.calc bench.old) (basis_in market.now names.now) script.now.commands (scenarios_of script.now)) }
    ensures calls { Calls (grid_calls (B.calc bench.old) (basis_in market.now names.now) script.now) result
        (B.count bench.old) (B.count bench.new) (B.log bench.old) (B.log bench.new) }
{
    let mut rows = Items::new(alloc);
    let none = CommandList::new(alloc);
    let asks = &script.commands;
    add_scenario(
        alloc, market, names, &None, &none, asks, bench, lines, &mut rows,
    )?;
    let mut at: usize = 0;
    while at < script.actions.len() {
        let name = Some(script.action_names.items()[at]);
        let moves = &script.actions.items()[at];
        add_scenario(
            alloc, market, names, &name, moves, asks, bench, lines, &mut rows,
        )?;
        at += 1;
    }
    Ok(rows)
}

// Appends the heading and the lines of a scenario, and what it shows.
fn add_scenario<B: Bench>(
    alloc: Global,
    market: &Market,
    names: &Names,
    name: &Option<NameId>,
    moves: &CommandList,
    asks: &CommandList,
    bench: &mut B,
    lines: &mut Vec<u8>,
    rows: &mut Items<Shown>,
) -> Result<(), AllocError>
    requires ready { IsReady names.now market.now.made.items }
    requires moves { All (λ c. is_move c ≡ true) moves.now }
    requires asks { All (λ c. is_ask c ≡ true) asks.now }
    requires known { All (IsCommand (length names.now) 0) moves.now }
    requires named { All (IsCommand (length names.now) 0) asks.now }
    ensures same { B.calc bench.new ≡ B.calc bench.old }
    ensures lines { OnOk result (lines.new.items ≡ lines.old.items
        ++ scenario_text (B.calc bench.old) (basis_in market.now names.now) asks.now (block_of name.now moves.now)) }
    ensures rows { OnOk result (rows_in rows.new ≡ rows_in rows.old
        ++ row_of (B.calc bench.old) (basis_in market.now names.now) asks.now (block_of name.now moves.now) ∷ []) }
    ensures calls { Calls (scenario_calls (B.calc bench.old) (basis_in market.now names.now) asks.now (block_of name.now moves.now))
        result (B.count bench.old) (B.count bench.new) (B.log bench.old) (B.log bench.new) }
{
    heading(names, *name, lines)?;
    let values = values_of(alloc, market, names, moves, asks, bench, lines)?;
    let row = shown(*name, values);
    rows.push(row)
}

// Appends the lines of a scenario, and gives the values that it shows.
fn values_of<B: Bench>(
    alloc: Global,
    market: &Market,
    names: &Names,
    moves: &CommandList,
    asks: &CommandList,
    bench: &mut B,
    lines: &mut Vec<u8>,
) -> Result<MoneyList, AllocError>
    requires ready { IsReady names.now market.now.made.items }
    requires moves { All (λ c. is_move c ≡ true) moves.now }
    requires asks { All (λ c. is_ask c ≡ true) asks.now }
    requires known { All (IsCommand (length names.now) 0) moves.now }
    requires named { All (IsCommand (length names.now) 0) asks.now }
    ensures same { B.calc bench.new ≡ B.calc bench.old }
    ensures lines { OnOk result (lines.new.items ≡ lines.old.items
        ++ scenario_lines (B.calc bench.old) (basis_in market.now names.now) asks.now (scenario_of moves.now)) }
    ensures values { IfOk result (λ values. values
        ≡ scenario_values (B.calc bench.old) (basis_in market.now names.now) asks.now (scenario_of moves.now)) }
    ensures calls { Calls (scenario_calls (B.calc bench.old) (basis_in market.now names.now) asks.now (scenario_of moves.now))
        result (B.count bench.old) (B.count bench.new) (B.log bench.old) (B.log bench.new) }
{
    let mut values = MoneyList::new(alloc);
    one_scenario(alloc, market, names, moves, asks, bench, lines, &mut values)?;
    Ok(values)
}

// What a scenario has shown, by its name.
fn shown(name: Option<NameId>, values: MoneyList) -> Shown
    ensures { result ≡ record { name = name; values = values } }
{
    Shown { name, values }
}
