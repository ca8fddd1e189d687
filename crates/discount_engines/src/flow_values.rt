// The price of a bond, swap or forward rate agreement.
ghost use Rattle.std.specs.Prelude.{◌≡◌, ◌≤◌, ◌*◌, ◌^◌, true, Some, IsSome, option_copied, unsigned_abs};
ghost use Rattle.fixed_amount.specs.Rounding.{closest};
ghost use Rattle.flow_terms.specs.Ranges.{AreFlowsInRange};
ghost use Rattle.flow_terms.specs.declared.limits.TheConstants.{MOST_FLOWS};
ghost use Rattle.desk_terms.specs.Reading.{AreCurves, IsIndexOf, index_reading};
ghost use Rattle.cash_flow_legs.specs.Amount.{views_of};
ghost use Rattle.cash_flow_legs.specs.Live.{needs_curve};
ghost use Rattle.discount_engines.specs.Money.{as_money};
ghost use Rattle.discount_engines.specs.Flows.{flows_price, value_over};

use crate::prices::money_of;
use crate::worths::worth;
use curve_points::{CurveValue, ONE};
use day_number::Day;
use desk_names::ObjId;
use desk_terms::{Cause, Input};
use fixed_amount::{Amount, Rounding, div_round};
use flow_terms::{FlowTerms, IndexUse, expired};

/// The price of an instrument of flows: nothing where each is paid on or before today.
#[inline(never)]
pub(crate) fn flows_price(
    object: ObjId,
    flows: &FlowTerms,
    today: Day,
    index: Option<&IndexUse<'_>>,
    inputs: &[Input],
) -> Result<Amount, Cause>
    requires range { AreFlowsInRange flows.now }
    requires index { IsIndexOf flows.now.index (index_reading (option_copied index)) }
    requires inputs { AreCurves flows.now (Some today) (index_reading (option_copied index)) inputs.now }
    ensures { as_money result ≡ flows_price object flows.now (Some today) (index_reading (option_copied index.entry)) inputs.now }
{
    if expired(flows, today) {
        return Ok(Amount(0));
    }
    match inputs {
        [Input::Curve(curve)] => value_over(object, flows, today, index, curve, None),
        [Input::Curve(curve), Input::Curve(forecast)] => {
            value_over(object, flows, today, index, curve, Some(forecast))
        }
        _ => Err(Cause::TooLarge(object)),
    }
}

// The same over a discount curve, and over the curve of the index where it is given.
fn value_over(
    object: ObjId,
    flows: &FlowTerms,
    today: Day,
    index: Option<&IndexUse<'_>>,
    curve: &CurveValue,
    forecast: Option<&CurveValue>,
) -> Result<Amount, Cause>
    requires range { AreFlowsInRange flows.now }
    requires index { IsIndexOf flows.now.index (index_reading (option_copied index)) }
    requires curve { needs_curve (views_of (option_copied index)) flows.now.flows today ≡ true → IsSome forecast }
    ensures { as_money result ≡ value_over object flows.now.flows today (index_reading (option_copied index.entry)) curve.now (option_copied forecast.entry) }
{
    let units = worth(object, flows.flows.items(), today, index, curve, forecast)?;
    money_of(object, rounded(units))
}

// What is worth so many units of an amount times units of a discount factor, in units of an amount.
fn rounded(units: i128) -> i128
    ensures { result ≡ closest units (10 ^ 12) }
{
    div_round(units, i128::from(ONE), Rounding::Closest)
}
