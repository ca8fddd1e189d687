// The lines.
ghost use Rattle.std.specs.Prelude.{◌≡◌, ◌++◌, OnOk, IfOk, codes, option_map};
ghost use Rattle.price_report.specs.Namer.{name_text};
ghost use Rattle.tool_script.specs.Grid.{label_text, asked_text, worst_text, worst_line, worst_lines};
ghost use Rattle.tool_script.specs.Shown.{rows_in, worst_in};

use crate::worst::{Worst, worst_of};
use crate::{BASE, Shown, asked_name};
use desk_names::{NameId, Names};
use fixed_amount::print_decimal;
use session_commands::Command;
use std::alloc::{AllocError, Global};

/// How many places an amount of money is printed with.
pub const MONEY_PLACES: u8 = 6;

/// Appends the heading of a scenario: `scenario`, and the name of its block, or `base` for the one without moves.
pub fn heading(names: &Names, name: Option<NameId>, out: &mut Vec<u8>) -> Result<(), AllocError>
    ensures { OnOk result (out.new.items ≡ out.old.items ++ (codes "scenario " ++ label_text names.now name ++ codes "\n")) }
{
    out.extend_from_slice(b"scenario ")?;
    out.extend_from_slice(label_of(names, name))?;
    out.extend_from_slice(b"\n")
}

/// Appends the line of each ask: its name, and the scenario in which it shows the least money with that amount, or `none`.
pub fn worst_lines(
    alloc: Global,
    names: &Names,
    rows: &[Shown],
    asks: &[Command],
    out: &mut Vec<u8>,
) -> Result<(), AllocError>
    ensures { OnOk result (out.new.items ≡ out.old.items ++ worst_lines names.now (rows_in rows.now) 0 asks.now) }
{
    let mut at: usize = 0;
    while at < asks.len() {
        worst_line(alloc, names, asked_name(&asks[at]), worst_of(rows, at), out)?;
        at += 1;
    }
    Ok(())
}

// Appends the line of one ask.
#[tactic(auto, unfolding(crate::specs::Grid::worst_line))]
fn worst_line(
    alloc: Global,
    names: &Names,
    name: Option<NameId>,
    worst: Option<Worst>,
    out: &mut Vec<u8>,
) -> Result<(), AllocError>
    ensures { OnOk result (out.new.items ≡ out.old.items ++ worst_line names.now name (option_map worst_in worst)) }
{
    out.extend_from_slice(b"worst ")?;
    out.extend_from_slice(asked_of(names, name))?;
    out.extend_from_slice(b" ")?;
    push_worst(alloc, names, worst, out)?;
    out.extend_from_slice(b"\n")
}

// Appends the name of a scenario and an amount, or `none`.
fn push_worst(
    alloc: Global,
    names: &Names,
    worst: Option<Worst>,
    out: &mut Vec<u8>,
) -> Result<(), AllocError>
    ensures { OnOk result (out.new.items ≡ out.old.items ++ worst_text names.now (option_map worst_in worst)) }
{
    match worst {
        Some(worst) => {
            out.extend_from_slice(label_of(names, worst.name))?;
            out.extend_from_slice(b" ")?;
            print_decimal(alloc, worst.amount.units(), MONEY_PLACES, out)
        }
        None => out.extend_from_slice(b"none"),
    }
}

/// The name of a block, or `base` for what has no moves; no bytes where the number stands for no name.
pub fn label_of(names: &Names, name: Option<NameId>) -> &[u8]
    ensures { result.now ≡ label_text names.now name }
{
    match name {
        Some(name) => text_of(names, name),
        None => BASE,
    }
}

/// The name that an ask asks for; no bytes where there is none.
pub fn asked_of(names: &Names, name: Option<NameId>) -> &[u8]
    ensures { result.now ≡ asked_text names.now name }
{
    match name {
        Some(name) => text_of(names, name),
        None => b"",
    }
}

// The text of a name, or no bytes where the number stands for no name.
fn text_of(names: &Names, name: NameId) -> &[u8]
    ensures { result.now ≡ name_text names.now name }
{
    if name.0 < names.len() {
        names.text(name)
    } else {
        b""
    }
}
