// The steps, one after the other in one session.
ghost use Rattle.std.specs.Prelude.{◌≡◌, ◌++◌, ◌∷◌, [], true, length, All, IfOk, OnOk};
ghost use Rattle.market_file.specs.Standing.{IsReady};
ghost use Rattle.session_commands.specs.Whole.{IsScript};
ghost use Rattle.session_model.specs.Rounds.{calls_of};
ghost use Rattle.session_model.specs.Standing.{IsKnown};
ghost use Rattle.tool_script.specs.Kinds.{is_move, is_ask};
ghost use Rattle.tool_script.specs.ShapeLaws.{IsTaken};
ghost use Rattle.tool_script.specs.Scenario.{ordered};
ghost use Rattle.tool_script.specs.Shown.{rows_in};
ghost use Rattle.tool_script.specs.Basis.{basis_in};
ghost use Rattle.tool_script.specs.Block.{block_of};
ghost use Rattle.tool_frame.specs.Calls.{Calls};
ghost use Rattle.tool_script.specs.Going.{IsGoing};
ghost use Rattle.tool_runs.specs.Explanation.{steps_of, explanation_from, explanation, explanation_calls};
ghost use Rattle.tool_runs.specs.Steps.{commands_of, behind, step_text, step_texts, step_row, step_rows, step_calls};

use crate::explain_lines::{gain_lines, heading};
use desk_names::{NameId, Names};
use desk_terms::Bench;
use item_lists::Items;
use market_file::Market;
use session_commands::{Command, CommandList, Script};
use session_rounds::WatchedSession;
use std::alloc::{AllocError, Global};
use tool_script::{MoneyList, Shown, begun, move_and_ask};
use watch_rounds::Order;

// The lines of an explanation: those of what is asked before the first block and of each block of the script, done in one
// session of a copy of the market's objects, and then for each ask what each step gains. It fails for want of memory alone.
pub(crate) fn explanation_lines<B: Bench>(
    alloc: Global,
    market: &Market,
    names: &Names,
    script: &Script,
    bench: &mut B,
) -> Result<Vec<u8>, AllocError>
    requires ready { IsReady names.now market.now.made.items }
    requires whole { IsScript names.now script.now }
    requires taken { IsTaken script.now }
    ensures same { B.calc bench.new ≡ B.calc bench.old }
    ensures lines { IfOk result (λ lines. lines.items ≡ explanation (B.calc bench.old) (basis_in market.now names.now) script.now) }
    ensures calls { Calls (explanation_calls (B.calc bench.old) (basis_in market.now names.now) script.now) result
        (B.count bench.old) (B.count bench.new) (B.log bench.old) (B.log bench.new) }
{
    let mut session = begun(alloc, market, names)?;
    lines_in(alloc, &mut session, names, script, bench)
}

// The same over a session that is lent: a function that owns one lets it go at each exit.
fn lines_in<B: Bench>(
    alloc: Global,
    session: &mut WatchedSession<Order>,
    names: &Names,
    script: &Script,
    bench: &mut B,
) -> Result<Vec<u8>, AllocError>
    requires going { IsGoing (B.calc bench.old) session.old }
    requires named { session.old.standing.names ≡ names.now }
    requires whole { IsScript names.now script.now }
    requires taken { IsTaken script.now }
    ensures same { B.calc bench.new ≡ B.calc bench.old }
    ensures lines { IfOk result (λ lines. lines.items ≡ explanation_from (B.calc bench.old) names.now script.now session.old) }
    ensures calls { Calls (step_calls (B.calc bench.old) script.now.commands (steps_of script.now) session.old) result
        (B.count bench.old) (B.count bench.new) (B.log bench.old) (B.log bench.new) }
{
    let mut lines = Vec::new(alloc);
    let rows = all_steps(alloc, session, names, script, bench, &mut lines)?;
    gain_lines(
        alloc,
        names,
        rows.items(),
        script.commands.items(),
        &mut lines,
    )?;
    Ok(lines)
}

// Appends the lines of each step, and gives what each of them shows.
fn all_steps<B: Bench>(
    alloc: Global,
    session: &mut WatchedSession<Order>,
    names: &Names,
    script: &Script,
    bench: &mut B,
    lines: &mut Vec<u8>,
) -> Result<Items<Shown>, AllocError>
    requires going { IsGoing (B.calc bench.old) session.old }
    requires named { session.old.standing.names ≡ names.now }
    requires whole { IsScript names.now script.now }
    requires taken { IsTaken script.now }
    ensures same { B.calc bench.new ≡ B.calc bench.old }
    ensures lines { OnOk result (lines.new.items ≡ lines.old.items
        ++ step_texts (B.calc bench.old) names.now script.now.commands (steps_of script.now) session.old) }
    ensures rows { IfOk result (λ rows. rows_in rows
        ≡ step_rows (B.calc bench.old) script.now.commands (steps_of script.now) session.old) }
    ensures calls { Calls (step_calls (B.calc bench.old) script.now.commands (steps_of script.now) session.old) result
        (B.count bench.old) (B.count bench.new) (B.log bench.old) (B.log bench.new) }
{
    let mut rows = Items::new(alloc);
    let none = CommandList::new(alloc);
    let asks = script.commands.items();
    add_step(
        alloc,
        session,
        names,
        &None,
        none.items(),
        asks,
        bench,
        lines,
        &mut rows,
    )?;
    let mut at: usize = 0;
    while at < script.actions.len() {
        let name = Some(script.action_names.items()[at]);
        let moves = script.actions.items()[at].items();
        add_step(
            alloc, session, names, &name, moves, asks, bench, lines, &mut rows,
        )?;
        at += 1;
    }
    Ok(rows)
}

// Appends the heading and the lines of a step, and what it shows.
fn add_step<B: Bench>(
    alloc: Global,
    session: &mut WatchedSession<Order>,
    names: &Names,
    name: &Option<NameId>,
    moves: &[Command],
    asks: &[Command],
    bench: &mut B,
    lines: &mut Vec<u8>,
    rows: &mut Items<Shown>,
) -> Result<(), AllocError>
    requires going { IsGoing (B.calc bench.old) session.old }
    requires known { All (IsKnown session.old.standing) moves.now }
    requires named { All (IsKnown session.old.standing) asks.now }
    requires moves { All (λ c. is_move c ≡ true) moves.now }
    requires asks { All (λ c. is_ask c ≡ true) asks.now }
    ensures same { B.calc bench.new ≡ B.calc bench.old }
    ensures lines { OnOk result (lines.new.items ≡ lines.old.items
        ++ step_text (B.calc bench.old) names.now asks.now (block_of name.now moves.now) session.old) }
    ensures rows { OnOk result (rows_in rows.new ≡ rows_in rows.old
        ++ step_row (B.calc bench.old) asks.now (block_of name.now moves.now) session.old ∷ []) }
    ensures next { OnOk result (session.new ≡ behind (B.calc bench.old) asks.now (block_of name.now moves.now) session.old) }
    ensures going { OnOk result (IsGoing (B.calc bench.old) session.new) }
    ensures names { OnOk result (session.new.standing.names ≡ session.old.standing.names) }
    ensures calls { Calls (calls_of (ordered (B.calc bench.old)) session.old (commands_of asks.now (block_of name.now moves.now)))
        result (B.count bench.old) (B.count bench.new) (B.log bench.old) (B.log bench.new) }
{
    heading(names, *name, lines)?;
    let mut values = MoneyList::new(alloc);
    move_and_ask(session, moves, asks, bench, lines, &mut values)?;
    let row = shown(*name, values);
    rows.push(row)
}

// What a step has shown, by its name.
fn shown(name: Option<NameId>, values: MoneyList) -> Shown
    ensures { result ≡ record { name = name; values = values } }
{
    Shown { name, values }
}
