// The pieces of lines.
ghost use Rattle.std.specs.Prelude.{◌≡◌, ◌≤◌, ◌++◌, OnOk, codes, option_copied};
ghost use Rattle.day_number.specs.Day.{day_text};
ghost use Rattle.fixed_amount.specs.Decimal.{decimal_text};
ghost use Rattle.desk_terms.specs.Asked.{Shows};
ghost use Rattle.desk_terms.specs.Reading.{Outcome};
ghost use Rattle.price_report.specs.Line.{point_text};
ghost use Rattle.why_model.specs.Answer.{named, shown_text};

use curve_points::CurveNode;
use day_number::{Day, print_day};
use desk_names::ObjId;
use desk_terms::{Cause, Value};
use fixed_amount::{Amount, Discount, Rate, print_decimal};
use price_report::cause_text;
use session_core::Session;
use std::alloc::{AllocError, Global};

const RATE_PLACES: u8 = 9;

const MONEY_PLACES: u8 = 6;

const FACTOR_PLACES: u8 = 12;

// How many places the product of an amount and a discount factor has.
const PRODUCT_PLACES: u8 = 18;

// Appends why a name stands for nothing that is priced.
pub(crate) fn push_refused(why: &[u8], name: &[u8], out: &mut Vec<u8>) -> Result<(), AllocError>
    ensures { OnOk result (out.new.items ≡ out.old.items ++ codes "refused why " ++ why.now ++ codes " " ++ name.now ++ codes "\n") }
{
    out.extend_from_slice(b"refused why ")?;
    out.extend_from_slice(why)?;
    out.extend_from_slice(b" ")?;
    out.extend_from_slice(name)?;
    out.extend_from_slice(b"\n")
}

// Appends the name of an object and words after it.
pub(crate) fn push_head(
    session: &Session,
    object: ObjId,
    words: &[u8],
    out: &mut Vec<u8>,
) -> Result<(), AllocError>
    ensures { OnOk result (out.new.items ≡ out.old.items ++ named session.now object ++ words.now) }
{
    out.extend_from_slice(session.namer().object(object))?;
    out.extend_from_slice(words)
}

// Appends a space and the name of an object.
pub(crate) fn push_name(
    session: &Session,
    object: ObjId,
    out: &mut Vec<u8>,
) -> Result<(), AllocError>
    ensures { OnOk result (out.new.items ≡ out.old.items ++ codes " " ++ named session.now object) }
{
    out.extend_from_slice(b" ")?;
    out.extend_from_slice(session.namer().object(object))
}

// Appends a space and a number with so many places.
fn push_decimal(alloc: Global, units: i128, places: u8, out: &mut Vec<u8>) -> Result<(), AllocError>
    requires { places ≤ 18 }
    ensures { OnOk result (out.new.items ≡ out.old.items ++ codes " " ++ decimal_text units places) }
{
    out.extend_from_slice(b" ")?;
    print_decimal(alloc, units, places, out)
}

// Appends a space and a weight.
pub(crate) fn push_weight(alloc: Global, weight: i64, out: &mut Vec<u8>) -> Result<(), AllocError>
    ensures { OnOk result (out.new.items ≡ out.old.items ++ codes " " ++ decimal_text weight 0) }
{
    push_decimal(alloc, i128::from(weight), 0, out)
}

// Appends a space and units of an amount.
pub(crate) fn push_money(alloc: Global, units: i128, out: &mut Vec<u8>) -> Result<(), AllocError>
    ensures { OnOk result (out.new.items ≡ out.old.items ++ codes " " ++ decimal_text units 6) }
{
    push_decimal(alloc, units, MONEY_PLACES, out)
}

// Appends a space and an amount.
pub(crate) fn push_amount(
    alloc: Global,
    amount: Amount,
    out: &mut Vec<u8>,
) -> Result<(), AllocError>
    ensures { OnOk result (out.new.items ≡ out.old.items ++ codes " " ++ decimal_text amount 6) }
{
    push_money(alloc, amount.units(), out)
}

// Appends a space and a rate.
pub(crate) fn push_rate(alloc: Global, rate: Rate, out: &mut Vec<u8>) -> Result<(), AllocError>
    ensures { OnOk result (out.new.items ≡ out.old.items ++ codes " " ++ decimal_text rate 9) }
{
    push_decimal(alloc, i128::from(rate.units()), RATE_PLACES, out)
}

// Appends a space and a discount factor.
pub(crate) fn push_factor(
    alloc: Global,
    factor: Discount,
    out: &mut Vec<u8>,
) -> Result<(), AllocError>
    ensures { OnOk result (out.new.items ≡ out.old.items ++ codes " " ++ decimal_text factor 12) }
{
    push_decimal(alloc, i128::from(factor.units()), FACTOR_PLACES, out)
}

// Appends a space and units of an amount times a discount factor.
pub(crate) fn push_product(alloc: Global, units: i128, out: &mut Vec<u8>) -> Result<(), AllocError>
    ensures { OnOk result (out.new.items ≡ out.old.items ++ codes " " ++ decimal_text units 18) }
{
    push_decimal(alloc, units, PRODUCT_PLACES, out)
}

// Appends a space and a day.
pub(crate) fn push_day(alloc: Global, day: Day, out: &mut Vec<u8>) -> Result<(), AllocError>
    ensures { OnOk result (out.new.items ≡ out.old.items ++ codes " " ++ day_text day) }
{
    out.extend_from_slice(b" ")?;
    print_day(alloc, day, out)
}

// Appends a space, the day of a node, and the discount factor there.
#[tactic(auto, unfolding(price_report::specs::Line::point_text))]
pub(crate) fn push_point(
    alloc: Global,
    node: &CurveNode,
    out: &mut Vec<u8>,
) -> Result<(), AllocError>
    ensures { OnOk result (out.new.items ≡ out.old.items ++ codes " " ++ point_text node.now.day node.now.factor) }
{
    push_day(alloc, node.day, out)?;
    push_factor(alloc, node.factor, out)
}

// Appends a space and what a priced object shows: an amount, the reference day of a curve, or why it is refused.
pub(crate) fn push_shown(
    alloc: Global,
    session: &Session,
    cause: &Option<Cause>,
    last: Option<&Value>,
    out: &mut Vec<u8>,
) -> Result<(), AllocError>
    ensures { (outcome : Outcome) → Shows cause.now (option_copied last.entry) outcome
        → OnOk result (out.new.items ≡ out.old.items ++ codes " " ++ shown_text session.now outcome) }
{
    match (cause, last) {
        (Some(cause), _) => {
            out.extend_from_slice(b" refused ")?;
            cause_text(alloc, cause, &session.namer(), out)
        }
        (None, Some(Value::Money(amount))) => push_amount(alloc, *amount, out),
        (None, Some(Value::Curve(curve))) => push_day(alloc, curve.reference(), out),
        (None, None) => Ok(()),
    }
}
