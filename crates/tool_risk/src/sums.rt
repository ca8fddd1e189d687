// Sums of what flows and members pay.
ghost use Rattle.std.specs.Prelude.{◌≡◌, ◌≤◌, ◌*◌, ◌^◌, ◌+◌, ◌*ℤ◌, ◌+ℤ◌, unsigned_abs, length, IfOk, option_copied};
ghost use Rattle.std.specs.List.{All};
ghost use Rattle.jiff_core.specs.Calendar.{IsWithin};
ghost use Rattle.flow_terms.specs.declared.limits.TheConstants.{MOST_AMOUNT, MOST_FLOWS};
ghost use Rattle.desk_terms.specs.Parts.{ArePartsInRange};
ghost use Rattle.tool_risk.specs.Dues.{settled, money_of, amount_by, amounts, member_due, product, summed, weighted};

use cash_flow_legs::Flow;
use curve_points::CurveValue;
use day_number::Day;
use desk_names::ObjId;
use desk_terms::{Cause, Part};
use fixed_amount::Amount;

// The most units of a price, either way.
const MOST_UNITS: i128 = 1_000_000_000_000_000_000_000_000;

// The sum of each weight times what its member pays.
pub(crate) fn weighted(
    object: ObjId,
    parts: &[Part],
    before: &[Result<Amount, Cause>],
) -> Result<Amount, Cause>
    requires { ArePartsInRange parts.now }
    ensures { result ≡ weighted object parts.now before.now }
{
    let units = summed(parts, before)?;
    money_of(object, units)
}

// The same in units; the first cause decides.
fn summed(parts: &[Part], before: &[Result<Amount, Cause>]) -> Result<i128, Cause>
    requires { ArePartsInRange parts.now }
    ensures { result ≡ summed (product before.now) parts.now }
{
    let mut sum: i128 = 0;
    for part in parts {
        let units = product(part, before)?;
        sum = sum_of(sum, units);
    }
    Ok(sum)
}

// A weight times what its member pays.
fn product(part: &Part, before: &[Result<Amount, Cause>]) -> Result<i128, Cause>
    requires { unsigned_abs part.now.weight ≤ 1000000 }
    ensures value { result ≡ product before.now part.now }
    ensures bound { IfOk result (λ units. unsigned_abs units ≤ 10 ^ 32) }
{
    match member_due(before, part.member) {
        Ok(due) => Ok(times(part.weight, due)),
        Err(cause) => Err(cause),
    }
}

// A weight times an amount.
fn times(weight: i64, amount: Amount) -> i128
    requires { unsigned_abs weight ≤ 1000000 }
    ensures value { result ≡ weight *ℤ amount }
    ensures bound { unsigned_abs result ≤ 10 ^ 32 }
{
    weight as i128 * amount.0
}

// A sum and units more.
fn sum_of(sum: i128, units: i128) -> i128
    requires sum { unsigned_abs sum ≤ 4096 * 10 ^ 32 }
    requires units { unsigned_abs units ≤ 10 ^ 32 }
    ensures value { result ≡ sum +ℤ units }
    ensures bound { unsigned_abs result ≤ unsigned_abs sum + unsigned_abs units }
{
    sum + units
}

// What a member pays.
fn member_due(before: &[Result<Amount, Cause>], member: ObjId) -> Result<Amount, Cause>
    ensures { result ≡ member_due before.now member }
{
    match before.get(member.0 as usize) {
        Some(due) => *due,
        None => Err(Cause::Unpriced(member)),
    }
}

// The sum of the flows up to a day.
pub(crate) fn paid_until(object: ObjId, flows: &[Flow], until: Day) -> Result<Amount, Cause>
    requires count { length flows.now ≤ MOST_FLOWS }
    requires amounts { All (λ flow. IsWithin MOST_AMOUNT flow.amount) flows.now }
    ensures { result ≡ money_of object (amounts until flows.now) }
{
    let mut sum: i128 = 0;
    for flow in flows {
        sum = sum_of(sum, amount_by(flow, until));
    }
    money_of(object, sum)
}

// The amount of a flow that is paid up to a day; nothing of another.
fn amount_by(flow: &Flow, until: Day) -> i128
    requires { IsWithin MOST_AMOUNT flow.now.amount }
    ensures value { result ≡ amount_by until flow.now }
    ensures bound { unsigned_abs result ≤ 10 ^ 22 }
{
    if flow.paid <= until {
        flow.amount.units()
    } else {
        0
    }
}

// The last day whose payments a price no longer counts: the later of the day and the curve's reference day.
pub(crate) fn settled(day: Day, curve: Option<&CurveValue>) -> Day
    ensures { result ≡ settled day (option_copied curve.entry) }
{
    match curve {
        Some(curve) if curve.reference() > day => curve.reference(),
        _ => day,
    }
}

// An amount within the limit of prices.
fn money_of(object: ObjId, units: i128) -> Result<Amount, Cause>
    ensures { result ≡ money_of object units }
{
    if units >= -MOST_UNITS && units <= MOST_UNITS {
        Ok(Amount(units))
    } else {
        Err(Cause::TooLarge(object))
    }
}
