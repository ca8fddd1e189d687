// The lines of the gains.
ghost use Rattle.std.specs.Prelude.{◌≡◌, ◌++◌, OnOk, codes};
ghost use Rattle.tool_script.specs.Grid.{column, label_text};
ghost use Rattle.tool_script.specs.Shown.{rows_in};
ghost use Rattle.tool_runs.specs.Explanation.{told_text, total_text, told_line, total_line, ask_lines, gain_lines};

use crate::gains::{difference, latter, told};
use crate::told::Told;
use desk_names::{NameId, Names};
use fixed_amount::print_decimal;
use session_commands::Command;
use std::alloc::{AllocError, Global};
use tool_script::{MONEY_PLACES, Shown, TOTAL, asked_name, asked_of, label_of, value_at};

// Appends the heading of a step: `step`, and the name of its block, or `base` for what is asked before the first.
pub(crate) fn heading(
    names: &Names,
    name: Option<NameId>,
    out: &mut Vec<u8>,
) -> Result<(), AllocError>
    ensures { OnOk result (out.new.items ≡ out.old.items ++ (codes "step " ++ label_text names.now name ++ codes "\n")) }
{
    out.extend_from_slice(b"step ")?;
    out.extend_from_slice(label_of(names, name))?;
    out.extend_from_slice(b"\n")
}

// Appends the lines of each ask: what each step tells of it, and the total.
pub(crate) fn gain_lines(
    alloc: Global,
    names: &Names,
    rows: &[Shown],
    asks: &[Command],
    out: &mut Vec<u8>,
) -> Result<(), AllocError>
    ensures { OnOk result (out.new.items ≡ out.old.items ++ gain_lines names.now (rows_in rows.now) 0 asks.now) }
{
    let mut at: usize = 0;
    while at < asks.len() {
        let asked = asked_name(&asks[at]);
        ask_lines(alloc, names, &asked, rows, at, out)?;
        at += 1;
    }
    Ok(())
}

// Appends the lines of the ask at a place.
fn ask_lines(
    alloc: Global,
    names: &Names,
    asked: &Option<NameId>,
    rows: &[Shown],
    at: usize,
    out: &mut Vec<u8>,
) -> Result<(), AllocError>
    ensures { OnOk result (out.new.items ≡ out.old.items ++ ask_lines names.now asked.now (column at (rows_in rows.now))) }
{
    let mut first = None;
    let mut last = None;
    for row in rows {
        let shown = value_at(row, at);
        told_line(alloc, names, asked, &row.name, told(&last, &shown), out)?;
        first = latter(&shown, &first);
        last = latter(&last, &shown);
    }
    total_line(alloc, names, asked, difference(&first, &last), out)
}

// Appends the line of a step.
#[tactic(auto, unfolding(crate::specs::Explanation::told_line))]
fn told_line(
    alloc: Global,
    names: &Names,
    asked: &Option<NameId>,
    step: &Option<NameId>,
    told: Told,
    out: &mut Vec<u8>,
) -> Result<(), AllocError>
    ensures { OnOk result (out.new.items ≡ out.old.items ++ told_line names.now asked.now step.now told) }
{
    out.extend_from_slice(b"explain ")?;
    out.extend_from_slice(asked_of(names, *asked))?;
    out.extend_from_slice(b" ")?;
    out.extend_from_slice(label_of(names, *step))?;
    out.extend_from_slice(b" ")?;
    push_told(alloc, told, out)?;
    out.extend_from_slice(b"\n")
}

// Appends what a step tells.
fn push_told(alloc: Global, told: Told, out: &mut Vec<u8>) -> Result<(), AllocError>
    ensures { OnOk result (out.new.items ≡ out.old.items ++ told_text told) }
{
    let (word, amount) = match told {
        Told::Nothing => return out.extend_from_slice(b"none"),
        Told::Value(amount) => (b"value ".as_slice(), amount),
        Told::Gain(amount) => (b"gain ".as_slice(), amount),
    };
    out.extend_from_slice(word)?;
    print_decimal(alloc, amount, MONEY_PLACES, out)
}

// Appends the line of a total.
#[tactic(auto, unfolding(crate::specs::Explanation::total_line))]
fn total_line(
    alloc: Global,
    names: &Names,
    asked: &Option<NameId>,
    total: Option<i128>,
    out: &mut Vec<u8>,
) -> Result<(), AllocError>
    ensures { OnOk result (out.new.items ≡ out.old.items ++ total_line names.now asked.now total) }
{
    out.extend_from_slice(b"explain ")?;
    out.extend_from_slice(asked_of(names, *asked))?;
    out.extend_from_slice(b" ")?;
    out.extend_from_slice(TOTAL)?;
    out.extend_from_slice(b" ")?;
    push_total(alloc, total, out)?;
    out.extend_from_slice(b"\n")
}

// Appends a total, or `none`.
fn push_total(alloc: Global, total: Option<i128>, out: &mut Vec<u8>) -> Result<(), AllocError>
    ensures { OnOk result (out.new.items ≡ out.old.items ++ total_text total) }
{
    match total {
        Some(amount) => print_decimal(alloc, amount, MONEY_PLACES, out),
        None => out.extend_from_slice(b"none"),
    }
}
