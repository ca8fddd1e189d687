// The line of an ask.
ghost use Rattle.std.specs.Prelude.{◌≡◌, ◌<◌, ◌++◌, OnOk, OnErr, option_copied, codes, decimal};
ghost use Rattle.desk_terms.specs.Asked.{Shows, mark_word};
ghost use Rattle.desk_terms.specs.Reading.{Outcome, outcome_in};
ghost use Rattle.price_report.specs.Front.{KeepsFront};
ghost use Rattle.price_report.specs.Line.{value_text, answer_text, asked_line};

use crate::Namer;
use crate::cause::{cause_text, push_count};
use crate::curve::push_curve;
use desk_names::NameId;
use desk_terms::{Asked, Cause, Mark, Value};
use fixed_amount::print_decimal;
use std::alloc::{AllocError, Global};

// How many places an amount of money is printed with.
const MONEY_PLACES: u8 = 6;

/// Appends the line of an ask: the name that was asked for, what the answer shows (the value, where there is no cause)
/// and how many computations it made. After want of memory `out` has its old bytes.
pub fn asked_line(
    alloc: Global,
    name: NameId,
    asked: &Asked,
    value: Option<&Value>,
    namer: &Namer<'_>,
    out: &mut Vec<u8>,
) -> Result<(), AllocError>
    requires given { (outcome : Outcome) × Shows asked.now.cause (option_copied value) outcome }
    ensures ok { (outcome : Outcome) → Shows asked.now.cause (option_copied value.entry) outcome
        → OnOk result (out.new.items ≡ out.old.items
        ++ asked_line namer.now.names.now namer.now.of_object.now name outcome asked.now.mark asked.now.runs) }
    ensures err { OnErr result (out.new.items ≡ out.old.items) }
{
    let outcome = shown(asked, value);
    let front = out.len();
    match push_asked(alloc, name, &outcome, asked.mark, asked.runs, namer, out) {
        Ok(()) => Ok(()),
        Err(fault) => {
            out.truncate(front);
            Err(fault)
        }
    }
}

// What the answer shows.
fn shown<'a>(asked: &Asked, value: Option<&'a Value>) -> Result<&'a Value, Cause>
    requires given { (outcome : Outcome) × Shows asked.now.cause (option_copied value) outcome }
    ensures { (outcome : Outcome) → Shows asked.now.cause (option_copied value.entry) outcome → outcome ≡ outcome_in result }
{
    match (&asked.cause, value) {
        (Some(cause), _) => Err(*cause),
        (None, Some(value)) => Ok(value),
        (None, None) => unreachable!(),
    }
}

// Appends the line; a part of it may stand where memory was wanting.
#[tactic(auto, unfolding(crate::specs::Line::asked_line), using(crate::proofs::Fronts::front_on, crate::proofs::Fronts::front_same))]
fn push_asked(
    alloc: Global,
    name: NameId,
    outcome: &Result<&Value, Cause>,
    mark: Mark,
    runs: u64,
    namer: &Namer<'_>,
    line: &mut Vec<u8>,
) -> Result<(), AllocError>
    ensures ok { OnOk result (line.new.items ≡ line.old.items
        ++ asked_line namer.now.names.now namer.now.of_object.now name (outcome_in outcome.now) mark runs) }
    ensures err { OnErr result (KeepsFront line.old.items line.new.items) }
{
    line.extend_from_slice(namer.name(name))?;
    line.push(b' ')?;
    push_answer(alloc, outcome, mark, runs, namer, line)?;
    Ok(())
}

// Appends a value and the mark, or the cause; then the count and a newline.
#[tactic(auto, using(crate::proofs::Fronts::front_on, crate::proofs::Fronts::front_same))]
fn push_answer(
    alloc: Global,
    outcome: &Result<&Value, Cause>,
    mark: Mark,
    runs: u64,
    namer: &Namer<'_>,
    line: &mut Vec<u8>,
) -> Result<(), AllocError>
    ensures ok { OnOk result (line.new.items ≡ line.old.items
        ++ (answer_text namer.now.names.now namer.now.of_object.now (outcome_in outcome.now) mark ++ codes " " ++ decimal runs ++ codes "\n")) }
    ensures err { OnErr result (KeepsFront line.old.items line.new.items) }
{
    match outcome {
        Ok(value) => {
            push_value(alloc, value, line)?;
            push_mark(mark, runs, line)
        }
        Err(cause) => {
            line.extend_from_slice(b"refused ")?;
            cause_text(alloc, cause, namer, line)?;
            push_runs(runs, line)?;
            Ok(())
        }
    }
}

// Appends the mark, the count and a newline. Most values are fresh, with a count of one digit: of these the bytes are
// appended at once.
#[tactic(auto, using(crate::proofs::Fronts::front_on, crate::proofs::Fronts::front_same))]
fn push_mark(mark: Mark, runs: u64, line: &mut Vec<u8>) -> Result<(), AllocError>
    ensures ok { OnOk result (line.new.items ≡ line.old.items
        ++ (codes " " ++ mark_word mark ++ codes " " ++ decimal runs ++ codes "\n")) }
    ensures err { OnErr result (KeepsFront line.old.items line.new.items) }
{
    if mark == Mark::Fresh && runs < 10 {
        return push_fresh(runs as u8, line);
    }
    line.push(b' ')?;
    line.extend_from_slice(mark.word())?;
    push_runs(runs, line)
}

// Appends the mark of a fresh value, a count of one digit and a newline.
#[tactic(auto, using(std::proofs::lemmas::Fmt::decimal_digit, crate::proofs::Fronts::front_same))]
fn push_fresh(runs: u8, line: &mut Vec<u8>) -> Result<(), AllocError>
    requires { runs < 10 }
    ensures ok { OnOk result (line.new.items ≡ line.old.items ++ (codes " fresh " ++ decimal runs ++ codes "\n")) }
    ensures err { OnErr result (KeepsFront line.old.items line.new.items) }
{
    line.extend_from_slice(&[b' ', b'f', b'r', b'e', b's', b'h', b' ', b'0' + runs, b'\n'])
}

// Appends the count and a newline.
#[tactic(auto, using(crate::proofs::Fronts::front_on, crate::proofs::Fronts::front_same))]
fn push_runs(runs: u64, line: &mut Vec<u8>) -> Result<(), AllocError>
    ensures ok { OnOk result (line.new.items ≡ line.old.items ++ (codes " " ++ decimal runs ++ codes "\n")) }
    ensures err { OnErr result (KeepsFront line.old.items line.new.items) }
{
    push_count(runs, line)?;
    line.push(b'\n')?;
    Ok(())
}

// Appends an amount or a curve.
fn push_value(alloc: Global, value: &Value, line: &mut Vec<u8>) -> Result<(), AllocError>
    ensures ok { OnOk result (line.new.items ≡ line.old.items ++ value_text value.now) }
    ensures err { OnErr result (line.new.items ≡ line.old.items) }
{
    match value {
        Value::Money(amount) => print_decimal(alloc, amount.units(), MONEY_PLACES, line),
        Value::Curve(curve) => {
            let mut text = Vec::new(alloc);
            push_curve(alloc, curve, &mut text)?;
            line.extend_from_slice(text.as_slice())
        }
    }
}
