// What flows are worth over a discount curve: the exact sum of amount times discount factor.
ghost use Rattle.std.specs.Prelude.{◌≡◌, ◌≤◌, ◌+◌, ◌*◌, ◌^◌, ◌+ℤ◌, ◌*ℤ◌, true, length, IsSome, IfOk, unsigned_abs, option_copied};
ghost use Rattle.std.specs.List.{All, filter};
ghost use Rattle.jiff_core.specs.Calendar.{IsWithin};
ghost use Rattle.flow_terms.specs.Flows.{fixed_on};
ghost use Rattle.flow_terms.specs.Ranges.{IsFlow};
ghost use Rattle.flow_terms.specs.declared.limits.TheConstants.{MOST_AMOUNT, MOST_FLOWS};
ghost use Rattle.cash_flow_legs.specs.Amount.{views_of, is_forecast_of, amount_of};
ghost use Rattle.cash_flow_legs.specs.Live.{needs_curve, is_live};
ghost use Rattle.discount_engines.specs.Worth.{factor_on, discounted, where_live, worth};

use cash_flow_legs::{amount_of, is_live};
use curve_points::{CurveValue, discount_near};
use day_number::Day;
use desk_names::ObjId;
use desk_terms::{Cause, point_cause};
use fixed_amount::{Amount, Discount};
use flow_terms::{FlowTerm, IndexUse};

/// What the flows of an instrument that are paid after today and after the discount curve's reference day are worth, in
/// units of an amount times units of a discount factor (QuantLib's `CashFlows::npv`). The first refusal decides: for each
/// flow in its order that of its amount, then that of the discount curve on the day on which it is paid.
pub(crate) fn worth(
    object: ObjId,
    flows: &[FlowTerm],
    today: Day,
    index: Option<&IndexUse<'_>>,
    curve: &CurveValue,
    forecast: Option<&CurveValue>,
) -> Result<i128, Cause>
    requires count { length flows.now ≤ MOST_FLOWS }
    requires range { All IsFlow flows.now }
    requires index { All (λ flow. IsSome (fixed_on flow) → IsSome index) flows.now }
    requires curve { needs_curve (views_of (option_copied index)) flows.now today ≡ true → IsSome forecast }
    ensures value { let amount = amount_of (views_of (option_copied index.entry)) today (option_copied forecast.entry) object in
        result ≡ worth (discounted amount (factor_on curve.now)) (filter (is_live today curve.now.reference) flows.now) }
    ensures size { IfOk result (λ units. unsigned_abs units ≤ MOST_FLOWS * (4 * 10 ^ 34)) }
{
    let mut sum: i128 = 0;
    let mut guess = 0;
    for flow in flows {
        let part = live_part(object, flow, today, index, curve, forecast, &mut guess)?;
        sum = sum_of(sum, part);
    }
    Ok(sum)
}

// What a flow is worth that is paid after both days; nothing of another.
fn live_part(
    object: ObjId,
    flow: &FlowTerm,
    today: Day,
    index: Option<&IndexUse<'_>>,
    curve: &CurveValue,
    forecast: Option<&CurveValue>,
    guess: &mut usize,
) -> Result<i128, Cause>
    requires flow { IsFlow flow.now }
    requires index { IsSome (fixed_on flow.now) → IsSome index }
    requires curve { is_live today curve.now.reference flow.now ≡ true → is_forecast_of (views_of (option_copied index)) today flow.now ≡ true → IsSome forecast }
    ensures value { let amount = amount_of (views_of (option_copied index.entry)) today (option_copied forecast.entry) object in
        result ≡ where_live (is_live today curve.now.reference) (discounted amount (factor_on curve.now)) flow.now }
    ensures size { IfOk result (λ units. unsigned_abs units ≤ 4 * 10 ^ 34) }
{
    if !is_live(flow, today, curve.reference()) {
        return Ok(0);
    }
    let amount = amount_of(flow, today, index, forecast, object)?;
    let factor = factor_on(curve, flow.paid(), guess)?;
    Ok(product(amount, factor))
}

// The discount factor on a day, the place of whose node is guessed.
#[inline(always)]
fn factor_on(curve: &CurveValue, day: Day, guess: &mut usize) -> Result<Discount, Cause>
    ensures { result ≡ factor_on curve.now day }
{
    match discount_near(curve, day, guess) {
        Ok(factor) => Ok(factor),
        Err(fault) => Err(point_cause(curve.owner(), day, fault)),
    }
}

// An amount times a discount factor: at most 10^22 times 4 * 10^12 units.
fn product(amount: Amount, factor: Discount) -> i128
    requires { IsWithin MOST_AMOUNT amount }
    ensures value { result ≡ amount *ℤ factor }
    ensures size { unsigned_abs result ≤ 4 * 10 ^ 34 }
{
    amount.units() * wide(factor)
}

// The units of a discount factor, for products.
fn wide(factor: Discount) -> i128
    ensures value { result ≡ factor }
    ensures size { unsigned_abs result ≤ 4 * 10 ^ 12 }
{
    i128::from(factor.units())
}

/// A sum of products, and one product more. No product is beyond an amount of 10^22 units at a discount factor of 4, nor
/// a sum beyond 1,602 of them: 6.5 * 10^37 of the 1.7 * 10^38 that 128 bits hold.
pub(crate) fn sum_of(sum: i128, units: i128) -> i128
    requires sum { unsigned_abs sum ≤ 1602 * (4 * 10 ^ 34) }
    requires units { unsigned_abs units ≤ 4 * 10 ^ 34 }
    ensures value { result ≡ sum +ℤ units }
    ensures bound { unsigned_abs result ≤ unsigned_abs sum + unsigned_abs units }
{
    sum + units
}
