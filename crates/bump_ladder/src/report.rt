// The lines of a ladder, and the texts of amounts and of why there is none.
ghost use Rattle.std.specs.Prelude.{◌≡◌, ◌++◌, OnOk, OnErr, IfOk, codes, decimal};
ghost use Rattle.bump_ladder.specs.Report.{missing_text, side_text, sides_text, label_text, rung_line, rung_lines, runs_line, ladder_lines, refused_lines};

use bump_model::{Ladder, Missing, Rung, Side};
use desk_names::ObjId;
use desk_terms::Cause;
use fixed_amount::print_decimal;
use price_report::{Namer, cause_text};
use std::alloc::{AllocError, Global};

/// How many places an amount of money is printed with.
pub const MONEY_PLACES: u8 = 6;

// Appends the lines of a ladder: the instrument's name and its base, a line for each rung, and how many computations
// were made. After want of memory `out` has its old bytes.
pub(crate) fn ladder_lines(
    alloc: Global,
    object: ObjId,
    ladder: &Ladder,
    namer: &Namer<'_>,
    out: &mut Vec<u8>,
) -> Result<(), AllocError>
    ensures ok { OnOk result (out.new.items ≡ out.old.items
        ++ ladder_lines namer.now.names.now namer.now.of_object.now object ladder.now.base ladder.now.rungs ladder.now.runs) }
    ensures err { OnErr result (out.new.items ≡ out.old.items) }
{
    let lines = ladder_bytes(alloc, object, ladder, namer)?;
    out.extend_from_slice(lines.as_slice())
}

// Appends the lines of an instrument that is worth nothing: its name and the cause, and how many computations were made.
// After want of memory `out` has its old bytes.
pub(crate) fn refused_lines(
    alloc: Global,
    object: ObjId,
    cause: &Cause,
    runs: u64,
    namer: &Namer<'_>,
    out: &mut Vec<u8>,
) -> Result<(), AllocError>
    ensures ok { OnOk result (out.new.items ≡ out.old.items
        ++ refused_lines namer.now.names.now namer.now.of_object.now object cause.now runs) }
    ensures err { OnErr result (out.new.items ≡ out.old.items) }
{
    let lines = refused_bytes(alloc, object, cause, runs, namer)?;
    out.extend_from_slice(lines.as_slice())
}

// The lines of a ladder in a vector of their own.
#[tactic(auto, unfolding(crate::specs::Report::ladder_lines))]
fn ladder_bytes(
    alloc: Global,
    object: ObjId,
    ladder: &Ladder,
    namer: &Namer<'_>,
) -> Result<Vec<u8>, AllocError>
    ensures { IfOk result (λ lines. lines.items
        ≡ ladder_lines namer.now.names.now namer.now.of_object.now object ladder.now.base ladder.now.rungs ladder.now.runs) }
{
    let mut lines = Vec::new(alloc);
    lines.extend_from_slice(namer.object(object))?;
    lines.extend_from_slice(b" base ")?;
    print_decimal(alloc, ladder.base.units(), MONEY_PLACES, &mut lines)?;
    lines.extend_from_slice(b"\n")?;
    push_rungs(alloc, ladder.rungs.items(), namer, &mut lines)?;
    push_runs(alloc, ladder.runs, &mut lines)?;
    Ok(lines)
}

// The lines of an instrument that is worth nothing in a vector of their own.
#[tactic(auto, unfolding(crate::specs::Report::refused_lines))]
fn refused_bytes(
    alloc: Global,
    object: ObjId,
    cause: &Cause,
    runs: u64,
    namer: &Namer<'_>,
) -> Result<Vec<u8>, AllocError>
    ensures { IfOk result (λ lines. lines.items
        ≡ refused_lines namer.now.names.now namer.now.of_object.now object cause.now runs) }
{
    let mut lines = Vec::new(alloc);
    lines.extend_from_slice(namer.object(object))?;
    lines.extend_from_slice(b" refused ")?;
    cause_text(alloc, cause, namer, &mut lines)?;
    lines.extend_from_slice(b"\n")?;
    push_runs(alloc, runs, &mut lines)?;
    Ok(lines)
}

// Appends the line of each rung.
fn push_rungs(
    alloc: Global,
    rungs: &[Rung],
    namer: &Namer<'_>,
    lines: &mut Vec<u8>,
) -> Result<(), AllocError>
    ensures { OnOk result (lines.new.items
        ≡ lines.old.items ++ rung_lines namer.now.names.now namer.now.of_object.now rungs.now) }
{
    for rung in rungs {
        push_rung(alloc, rung, namer, lines)?;
    }
    Ok(())
}

// Appends the line of a rung.
#[tactic(auto, unfolding(crate::specs::Report::rung_line))]
fn push_rung(
    alloc: Global,
    rung: &Rung,
    namer: &Namer<'_>,
    lines: &mut Vec<u8>,
) -> Result<(), AllocError>
    ensures { OnOk result (lines.new.items
        ≡ lines.old.items ++ rung_line namer.now.names.now namer.now.of_object.now rung.now) }
{
    lines.extend_from_slice(label(rung.label, namer))?;
    push_sides(alloc, &rung.up, &rung.down, namer, lines)?;
    lines.extend_from_slice(b"\n")
}

// The name of a rung's quote, or that all are moved.
fn label<'a>(label: Option<ObjId>, namer: &Namer<'a>) -> &'a [u8]
    ensures { result.now ≡ label_text namer.now.names.now namer.now.of_object.now label }
{
    match label {
        Some(quote) => namer.object(quote),
        None => b"all",
    }
}

// Appends both sides, or that the quote has no value.
fn push_sides(
    alloc: Global,
    up: &Side,
    down: &Side,
    namer: &Namer<'_>,
    lines: &mut Vec<u8>,
) -> Result<(), AllocError>
    ensures { OnOk result (lines.new.items
        ≡ lines.old.items ++ sides_text namer.now.names.now namer.now.of_object.now up.now down.now) }
{
    match up {
        Side::Unset => lines.extend_from_slice(b" unset"),
        Side::Moved(_) | Side::NoPrice(_) => {
            lines.extend_from_slice(b" up ")?;
            push_side(alloc, up, namer, lines)?;
            lines.extend_from_slice(b" down ")?;
            push_side(alloc, down, namer, lines)
        }
    }
}

// Appends one side.
fn push_side(
    alloc: Global,
    side: &Side,
    namer: &Namer<'_>,
    lines: &mut Vec<u8>,
) -> Result<(), AllocError>
    ensures { OnOk result (lines.new.items
        ≡ lines.old.items ++ side_text namer.now.names.now namer.now.of_object.now side.now) }
{
    match side {
        Side::Moved(gain) => print_decimal(alloc, gain.units(), MONEY_PLACES, lines),
        Side::NoPrice(why) => push_missing(alloc, why, namer, lines),
        Side::Unset => lines.extend_from_slice(b"unset"),
    }
}

/// Appends why there is no price. After want of memory `lines` may have a part of it.
pub fn push_missing(
    alloc: Global,
    why: &Missing,
    namer: &Namer<'_>,
    lines: &mut Vec<u8>,
) -> Result<(), AllocError>
    ensures { OnOk result (lines.new.items
        ≡ lines.old.items ++ missing_text namer.now.names.now namer.now.of_object.now why.now) }
{
    match why {
        Missing::Refused(cause) => {
            lines.extend_from_slice(b"refused ")?;
            cause_text(alloc, cause, namer, lines)
        }
        Missing::Limit => lines.extend_from_slice(b"limit"),
    }
}

// Appends the line of how many computations were made.
#[tactic(auto, unfolding(crate::specs::Report::runs_line))]
fn push_runs(alloc: Global, runs: u64, lines: &mut Vec<u8>) -> Result<(), AllocError>
    ensures { OnOk result (lines.new.items ≡ lines.old.items ++ runs_line runs) }
{
    lines.extend_from_slice(b"runs ")?;
    lines.extend_from_slice(format!(in alloc; "{runs}")?.as_bytes())?;
    lines.extend_from_slice(b"\n")
}
