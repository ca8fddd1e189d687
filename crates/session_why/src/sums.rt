// The lines of products, and of their sum.
ghost use Rattle.std.specs.Prelude.{◌≡◌, ◌≤◌, ◌+◌, ◌*◌, ◌^◌, ◌+ℤ◌, ◌++◌, ◌∷◌, [], length, unsigned_abs, Ok, Some, OnOk};
ghost use Rattle.flow_terms.specs.declared.limits.TheConstants.{MOST_FLOWS};
ghost use Rattle.why_model.specs.Answer.{fixing_text, flows_text, named, sum_text};

use crate::lines::{push_amount, push_day, push_factor, push_head, push_product, push_rate};
use crate::products::FlowLine;
use day_number::Day;
use desk_names::ObjId;
use fixed_amount::Rate;
use session_core::Session;
use std::alloc::{AllocError, Global};

// Appends each flow, and the sum of their products.
pub(crate) fn push_sum(
    alloc: Global,
    session: &Session,
    object: ObjId,
    flows: &[FlowLine],
    out: &mut Vec<u8>,
) -> Result<(), AllocError>
    requires { length flows.now ≤ MOST_FLOWS }
    ensures { OnOk result (out.new.items ≡ out.old.items ++ sum_text (named session.now object) (Ok flows.now)) }
{
    let mut sum: i128 = 0;
    for flow in flows {
        push_flow(alloc, session, object, flow, out)?;
        sum = added(sum, flow.product);
    }
    push_head(session, object, b" sum", out)?;
    push_product(alloc, sum, out)?;
    out.extend_from_slice(b"\n")
}

// A sum of products, and one product more: no sum is beyond 1,602 products of 4 * 10^34 units.
fn added(sum: i128, product: i128) -> i128
    requires sum { unsigned_abs sum ≤ 1602 * (4 * 10 ^ 34) }
    requires product { unsigned_abs product ≤ 4 * 10 ^ 34 }
    ensures value { result ≡ sum +ℤ product }
    ensures bound { unsigned_abs result ≤ unsigned_abs sum + unsigned_abs product }
{
    sum + product
}

// Appends a flow with its amount, the discount factor, the product of both, and its fixing.
fn push_flow(
    alloc: Global,
    session: &Session,
    object: ObjId,
    flow: &FlowLine,
    out: &mut Vec<u8>,
) -> Result<(), AllocError>
    ensures { OnOk result (out.new.items ≡ out.old.items ++ flows_text (named session.now object) (flow.now ∷ [])) }
{
    push_head(session, object, b" flow", out)?;
    push_day(alloc, flow.paid, out)?;
    push_amount(alloc, flow.amount, out)?;
    push_factor(alloc, flow.factor, out)?;
    push_product(alloc, flow.product, out)?;
    push_fixing(alloc, flow.fixing, out)?;
    out.extend_from_slice(b"\n")
}

// Appends the fixing in the amount of a flow, if there is one.
fn push_fixing(
    alloc: Global,
    fixing: Option<(Day, Rate)>,
    out: &mut Vec<u8>,
) -> Result<(), AllocError>
    ensures { OnOk result (out.new.items ≡ out.old.items ++ fixing_text fixing) }
{
    match fixing {
        None => Ok(()),
        Some((day, rate)) => push_fixed(alloc, day, rate, out),
    }
}

// Appends the day and the rate of a fixing.
fn push_fixed(alloc: Global, day: Day, rate: Rate, out: &mut Vec<u8>) -> Result<(), AllocError>
    ensures { OnOk result (out.new.items ≡ out.old.items ++ fixing_text (Some (day, rate))) }
{
    out.extend_from_slice(b" fixing")?;
    push_day(alloc, day, out)?;
    push_rate(alloc, rate, out)
}
