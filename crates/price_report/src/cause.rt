// The text of a cause.
ghost use Rattle.std.specs.Prelude.{◌≡◌, ◌++◌, OnOk, OnErr, codes, decimal};
ghost use Rattle.day_number.specs.Day.{day_text};
ghost use Rattle.price_report.specs.Front.{KeepsFront};
ghost use Rattle.price_report.specs.Line.{cause_detail, cause_text};

use crate::Namer;
use day_number::{Day, print_day};
use desk_terms::Cause;
use itoa::Buffer;
use std::alloc::{AllocError, Global};

/// Appends a cause: its word, the name of its object, and the day or the number that it names. After want of memory `out`
/// has its old bytes.
pub fn cause_text(
    alloc: Global,
    cause: &Cause,
    namer: &Namer<'_>,
    out: &mut Vec<u8>,
) -> Result<(), AllocError>
    ensures ok { OnOk result (out.new.items
        ≡ out.old.items ++ cause_text namer.now.names.now namer.now.of_object.now cause.now) }
    ensures err { OnErr result (out.new.items ≡ out.old.items) }
{
    let mut text = Vec::new(alloc);
    push_cause(alloc, cause, namer, &mut text)?;
    out.extend_from_slice(text.as_slice())
}

// Appends a cause: its word, the name of its object, and the rest.
pub(crate) fn push_cause(
    alloc: Global,
    cause: &Cause,
    namer: &Namer<'_>,
    line: &mut Vec<u8>,
) -> Result<(), AllocError>
    ensures { OnOk result (line.new.items
        ≡ line.old.items ++ cause_text namer.now.names.now namer.now.of_object.now cause.now) }
{
    line.extend_from_slice(cause.word())?;
    line.extend_from_slice(b" ")?;
    line.extend_from_slice(namer.object(cause.object()))?;
    push_detail(alloc, cause, line)
}

// Appends the day or the count that a cause names behind its object.
fn push_detail(alloc: Global, cause: &Cause, line: &mut Vec<u8>) -> Result<(), AllocError>
    ensures { OnOk result (line.new.items ≡ line.old.items ++ cause_detail cause.now) }
{
    match cause {
        Cause::NoFixing(_, day) | Cause::Before(_, day) | Cause::Past(_, day) => {
            push_day(alloc, *day, line)
        }
        Cause::Pillar(_, at) | Cause::Discount(_, at) | Cause::Negative(_, at) => {
            push_count(u64::from(*at), line)
        }
        Cause::Unset(_)
        | Cause::Empty(_)
        | Cause::NoEngine(_)
        | Cause::RateRange(_)
        | Cause::DateRange(_)
        | Cause::TooLarge(_)
        | Cause::Unpriced(_) => Ok(()),
    }
}

// Appends a space and a day.
fn push_day(alloc: Global, day: Day, line: &mut Vec<u8>) -> Result<(), AllocError>
    ensures { OnOk result (line.new.items ≡ line.old.items ++ (codes " " ++ day_text day)) }
{
    line.extend_from_slice(b" ")?;
    print_day(alloc, day, line)
}

// Appends a space and a count.
#[tactic(auto, using(crate::proofs::Fronts::front_on, crate::proofs::Fronts::front_same))]
pub(crate) fn push_count(count: u64, line: &mut Vec<u8>) -> Result<(), AllocError>
    ensures ok { OnOk result (line.new.items ≡ line.old.items ++ (codes " " ++ decimal count)) }
    ensures err { OnErr result (KeepsFront line.old.items line.new.items) }
{
    line.push(b' ')?;
    line.extend_from_slice(Buffer::new().format(count).as_bytes())
}
