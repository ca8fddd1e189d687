// The line of a discount factor.
ghost use Rattle.std.specs.Prelude.{◌≡◌, ◌++◌, OnOk, OnErr, IfOk};
ghost use Rattle.price_report.specs.Line.{found_text, df_line};

use crate::Namer;
use crate::cause::{push_cause, push_count};
use crate::curve::push_point;
use day_number::Day;
use desk_names::NameId;
use desk_terms::{Asked, Cause, Mark};
use fixed_amount::Discount;
use std::alloc::{AllocError, Global};

/// Appends the line of a discount factor: the name of the curve that was asked for, the day and the factor there, or the
/// cause; then the mark of the ask, and how many computations it made. After want of memory `out` has its old bytes.
pub fn df_line(
    alloc: Global,
    name: NameId,
    day: Day,
    found: &Result<Discount, Cause>,
    asked: &Asked,
    namer: &Namer<'_>,
    out: &mut Vec<u8>,
) -> Result<(), AllocError>
    ensures ok { OnOk result (out.new.items ≡ out.old.items
        ++ df_line namer.now.names.now namer.now.of_object.now name day found.now asked.now.mark asked.now.runs) }
    ensures err { OnErr result (out.new.items ≡ out.old.items) }
{
    let line = df_bytes(alloc, name, day, found, asked.mark, asked.runs, namer)?;
    out.extend_from_slice(line.as_slice())
}

// The line in a vector of its own.
#[tactic(auto, unfolding(crate::specs::Line::df_line))]
fn df_bytes(
    alloc: Global,
    name: NameId,
    day: Day,
    found: &Result<Discount, Cause>,
    mark: Mark,
    runs: u64,
    namer: &Namer<'_>,
) -> Result<Vec<u8>, AllocError>
    ensures { IfOk result (λ line. line.items
        ≡ df_line namer.now.names.now namer.now.of_object.now name day found.now mark runs) }
{
    let mut line = Vec::new(alloc);
    line.extend_from_slice(namer.name(name))?;
    line.extend_from_slice(b" ")?;
    push_found(alloc, day, found, mark, namer, &mut line)?;
    push_count(runs, &mut line)?;
    line.extend_from_slice(b"\n")?;
    Ok(line)
}

// Appends a day, the discount factor there and the mark, or the cause.
fn push_found(
    alloc: Global,
    day: Day,
    found: &Result<Discount, Cause>,
    mark: Mark,
    namer: &Namer<'_>,
    line: &mut Vec<u8>,
) -> Result<(), AllocError>
    ensures { OnOk result (line.new.items
        ≡ line.old.items ++ found_text namer.now.names.now namer.now.of_object.now day found.now mark) }
{
    match found {
        Ok(factor) => {
            push_point(alloc, day, *factor, line)?;
            line.extend_from_slice(b" ")?;
            line.extend_from_slice(mark.word())
        }
        Err(cause) => {
            line.extend_from_slice(b"refused ")?;
            push_cause(alloc, cause, namer, line)
        }
    }
}
