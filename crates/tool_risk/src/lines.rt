// The rows of an instrument.
ghost use Rattle.std.specs.Prelude.{◌≡◌, ◌++◌, length, IfOk, OnOk};
ghost use Rattle.tool_risk.specs.Asking.{IsFew, AreFew};
ghost use Rattle.tool_risk.specs.Lines.{head, figure_text, label_text, figure_row, rung_rows, sum_rows_at, rungs_rows, unnamed_row, refused_row, ladder_rows, gain_text, theta_label, theta_text, theta_row};

use crate::theta::{Gain, Theta};
use crate::{Figure, Missing, cross, delta, gamma, sum_at};
use bump_ladder::{Bump, Ladder, MONEY_PLACES, Rung, push_missing};
use day_number::print_day;
use desk_names::ObjId;
use desk_terms::Cause;
use fixed_amount::print_decimal;
use market_desk::Unnamed;
use price_report::{Namer, cause_text};
use std::alloc::{AllocError, Global};

// Appends the row of a name that stands for no instrument.
#[tactic(auto, unfolding(crate::specs::Lines::unnamed_row))]
pub(crate) fn unnamed_row(name: &[u8], why: Unnamed, lines: &mut Vec<u8>) -> Result<(), AllocError>
    ensures { OnOk result (lines.new.items ≡ lines.old.items ++ unnamed_row name.now why) }
{
    push_head(name, b"value", b"", lines)?;
    lines.extend_from_slice(b"refused ")?;
    lines.extend_from_slice(why.word())?;
    lines.extend_from_slice(b"\n")
}

// Appends the row of an instrument that has no price.
#[tactic(auto, unfolding(crate::specs::Lines::refused_row))]
pub(crate) fn refused_row(
    alloc: Global,
    object: ObjId,
    cause: &Cause,
    namer: &Namer<'_>,
    lines: &mut Vec<u8>,
) -> Result<(), AllocError>
    ensures { OnOk result (lines.new.items
        ≡ lines.old.items ++ refused_row namer.now.names.now namer.now.of_object.now object cause.now) }
{
    push_head(namer.object(object), b"value", b"", lines)?;
    lines.extend_from_slice(b"refused ")?;
    cause_text(alloc, cause, namer, lines)?;
    lines.extend_from_slice(b"\n")
}

// Appends the rows of a ladder: of what the instrument is worth, and of the figures of each rung.
#[tactic(auto, unfolding(crate::specs::Lines::ladder_rows))]
pub(crate) fn ladder_rows(
    alloc: Global,
    object: ObjId,
    bumps: &[Bump],
    ladder: &Ladder,
    namer: &Namer<'_>,
    lines: &mut Vec<u8>,
) -> Result<(), AllocError>
    requires paired { length ladder.now.rungs ≡ length bumps.now }
    requires few { AreFew bumps.now }
    ensures { OnOk result (lines.new.items ≡ lines.old.items
        ++ ladder_rows namer.now.names.now namer.now.of_object.now object ladder.now.base bumps.now ladder.now.rungs) }
{
    push_head(namer.object(object), b"value", b"", lines)?;
    print_decimal(alloc, ladder.base.units(), MONEY_PLACES, lines)?;
    lines.extend_from_slice(b"\n")?;
    push_rungs(alloc, object, bumps, ladder.rungs.items(), namer, lines)
}

// Appends the row of a theta.
#[tactic(auto, unfolding(crate::specs::Lines::theta_row))]
pub(crate) fn theta_row(
    alloc: Global,
    object: ObjId,
    theta: &Theta,
    namer: &Namer<'_>,
    lines: &mut Vec<u8>,
) -> Result<(), AllocError>
    ensures { OnOk result (lines.new.items
        ≡ lines.old.items ++ theta_row namer.now.names.now namer.now.of_object.now object theta.now) }
{
    let label = theta_label(alloc, theta)?;
    push_head(namer.object(object), b"theta", &label, lines)?;
    push_theta(alloc, theta, namer, lines)?;
    lines.extend_from_slice(b"\n")
}

// The text of the next business day.
fn theta_label(alloc: Global, theta: &Theta) -> Result<Vec<u8>, AllocError>
    ensures { IfOk result (λ label. label.items ≡ theta_label theta.now) }
{
    let mut label = Vec::new(alloc);
    match theta {
        Theta::On { day, .. } => print_day(alloc, *day, &mut label)?,
        Theta::Limit => {}
    }
    Ok(label)
}

// Appends a theta: what is gained, or that there is no such day.
fn push_theta(
    alloc: Global,
    theta: &Theta,
    namer: &Namer<'_>,
    lines: &mut Vec<u8>,
) -> Result<(), AllocError>
    ensures { OnOk result (lines.new.items
        ≡ lines.old.items ++ theta_text namer.now.names.now namer.now.of_object.now theta.now) }
{
    match theta {
        Theta::On { gain, .. } => push_gain(alloc, gain, namer, lines),
        Theta::Limit => lines.extend_from_slice(b"limit"),
    }
}

// Appends a gain: an amount with six places, or why there is none.
fn push_gain(
    alloc: Global,
    gain: &Gain,
    namer: &Namer<'_>,
    lines: &mut Vec<u8>,
) -> Result<(), AllocError>
    ensures { OnOk result (lines.new.items
        ≡ lines.old.items ++ gain_text namer.now.names.now namer.now.of_object.now gain.now) }
{
    match gain {
        Gain::Is(units) => print_decimal(alloc, *units, MONEY_PLACES, lines),
        Gain::Tomorrow(cause) => {
            lines.extend_from_slice(b"tomorrow ")?;
            push_missing(alloc, &Missing::Refused(*cause), namer, lines)
        }
        Gain::Paid(cause) => {
            lines.extend_from_slice(b"paid ")?;
            push_missing(alloc, &Missing::Refused(*cause), namer, lines)
        }
    }
}

// Appends the rows of each rung, by its bump.
fn push_rungs(
    alloc: Global,
    object: ObjId,
    bumps: &[Bump],
    rungs: &[Rung],
    namer: &Namer<'_>,
    lines: &mut Vec<u8>,
) -> Result<(), AllocError>
    requires paired { length rungs.now ≡ length bumps.now }
    requires few { AreFew bumps.now }
    ensures { OnOk result (lines.new.items ≡ lines.old.items
        ++ rungs_rows namer.now.names.now namer.now.of_object.now object rungs.now bumps.now rungs.now) }
{
    let mut at: usize = 0;
    while at < bumps.len() {
        push_bump(alloc, object, &bumps[at], &rungs[at], rungs, namer, lines)?;
        at += 1;
    }
    Ok(())
}

// Appends the rows of a rung, and those of a sum where several quotes are moved.
fn push_bump(
    alloc: Global,
    object: ObjId,
    bump: &Bump,
    rung: &Rung,
    rungs: &[Rung],
    namer: &Namer<'_>,
    lines: &mut Vec<u8>,
) -> Result<(), AllocError>
    requires few { IsFew bump.now }
    ensures { OnOk result (lines.new.items ≡ lines.old.items
        ++ (rung_rows namer.now.names.now namer.now.of_object.now object rung.now
        ++ sum_rows_at namer.now.names.now namer.now.of_object.now object rungs.now bump.now rung.now)) }
{
    push_rung(alloc, object, rung, namer, lines)?;
    push_sum_at(alloc, object, bump, rung, rungs, namer, lines)
}

// Appends the rows of a sum where several quotes are moved.
#[tactic(auto, unfolding(crate::specs::Lines::sum_rows_at, crate::specs::Lines::sum_rows))]
fn push_sum_at(
    alloc: Global,
    object: ObjId,
    bump: &Bump,
    rung: &Rung,
    rungs: &[Rung],
    namer: &Namer<'_>,
    lines: &mut Vec<u8>,
) -> Result<(), AllocError>
    requires few { IsFew bump.now }
    ensures { OnOk result (lines.new.items ≡ lines.old.items
        ++ sum_rows_at namer.now.names.now namer.now.of_object.now object rungs.now bump.now rung.now) }
{
    match bump {
        Bump::One(_) => Ok(()),
        Bump::Together { label, quotes } => {
            let sum = sum_at(rungs, quotes.items());
            let cross = cross(rung, &sum);
            push_figure_row(alloc, object, b"sum", *label, &sum, namer, lines)?;
            push_figure_row(alloc, object, b"cross", *label, &cross, namer, lines)
        }
    }
}

// Appends the rows of a rung: its delta and its gamma.
#[tactic(auto, unfolding(crate::specs::Lines::rung_rows))]
fn push_rung(
    alloc: Global,
    object: ObjId,
    rung: &Rung,
    namer: &Namer<'_>,
    lines: &mut Vec<u8>,
) -> Result<(), AllocError>
    ensures { OnOk result (lines.new.items
        ≡ lines.old.items ++ rung_rows namer.now.names.now namer.now.of_object.now object rung.now) }
{
    let delta = delta(rung);
    let gamma = gamma(rung);
    push_figure_row(alloc, object, b"delta", rung.label, &delta, namer, lines)?;
    push_figure_row(alloc, object, b"gamma", rung.label, &gamma, namer, lines)
}

// Appends the row of a figure.
#[tactic(auto, unfolding(crate::specs::Lines::figure_row))]
fn push_figure_row(
    alloc: Global,
    object: ObjId,
    measure: &[u8],
    label: Option<ObjId>,
    figure: &Figure,
    namer: &Namer<'_>,
    lines: &mut Vec<u8>,
) -> Result<(), AllocError>
    ensures { OnOk result (lines.new.items
        ≡ lines.old.items ++ figure_row namer.now.names.now namer.now.of_object.now object measure.now label figure.now) }
{
    push_head(namer.object(object), measure, label_of(label, namer), lines)?;
    push_figure(alloc, figure, namer, lines)?;
    lines.extend_from_slice(b"\n")
}

// The name of what is moved: of a quote, or of the object for whose sake several are.
fn label_of<'a>(label: Option<ObjId>, namer: &Namer<'a>) -> &'a [u8]
    ensures { result.now ≡ label_text namer.now.names.now namer.now.of_object.now label }
{
    match label {
        Some(object) => namer.object(object),
        None => b"",
    }
}

// Appends the first three fields of a row.
fn push_head(
    name: &[u8],
    measure: &[u8],
    label: &[u8],
    lines: &mut Vec<u8>,
) -> Result<(), AllocError>
    ensures { OnOk result (lines.new.items ≡ lines.old.items ++ head name.now measure.now label.now) }
{
    lines.extend_from_slice(name)?;
    lines.extend_from_slice(b",")?;
    lines.extend_from_slice(measure)?;
    lines.extend_from_slice(b",")?;
    lines.extend_from_slice(label)?;
    lines.extend_from_slice(b",")
}

// Appends a figure: an amount with six places, or why there is none.
fn push_figure(
    alloc: Global,
    figure: &Figure,
    namer: &Namer<'_>,
    lines: &mut Vec<u8>,
) -> Result<(), AllocError>
    ensures { OnOk result (lines.new.items
        ≡ lines.old.items ++ figure_text namer.now.names.now namer.now.of_object.now figure.now) }
{
    match figure {
        Figure::Is(units) => print_decimal(alloc, *units, MONEY_PLACES, lines),
        Figure::Unset => lines.extend_from_slice(b"unset"),
        Figure::Up(missing) => {
            lines.extend_from_slice(b"up ")?;
            push_missing(alloc, missing, namer, lines)
        }
        Figure::Down(missing) => {
            lines.extend_from_slice(b"down ")?;
            push_missing(alloc, missing, namer, lines)
        }
    }
}
