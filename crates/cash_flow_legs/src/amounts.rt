// The amount of a flow.
ghost use Rattle.std.specs.Prelude.{◌≡◌, true, ℕ, ℤ, Option, Some, None, pos, IsSome, IsNone, IfOk, option_copied};
ghost use Rattle.jiff_core.specs.Calendar.{IsBetween, IsWithin};
ghost use Rattle.curve_points.specs.Curve.{Curve};
ghost use Rattle.flow_terms.specs.Fixings.{IsRate};
ghost use Rattle.flow_terms.specs.Flows.{fixed_on, is_forecast};
ghost use Rattle.flow_terms.specs.Ranges.{IsNotional, IsFlow};
ghost use Rattle.flow_terms.specs.declared.limits.TheConstants.{MOST_PARTS, MOST_AMOUNT};
ghost use Rattle.cash_flow_legs.specs.Amount as due;

use crate::interests::{interest, sum};
use crate::settlements::settlement;
use curve_points::CurveValue;
use day_number::Day;
use desk_names::ObjId;
use desk_terms::Cause;
use fixed_amount::{Amount, Rate};
use flow_terms::{FlowTerm, IndexUse};
use rate_indexes::{fixing, period};
use year_parts::YearParts;

/// Returns the amount of a flow of an instrument, the owner. An index must be given if the flow is on one, and a curve if its rate
/// has to be forecast.
///
/// # Errors
///
/// The cause: that of the fixing, for a settlement that of its period, then `TooLarge` of the owner.
pub fn amount_of(
    flow: &FlowTerm,
    today: Day,
    index: Option<&IndexUse<'_>>,
    curve: Option<&CurveValue>,
    owner: ObjId,
) -> Result<Amount, Cause>
    requires flow { IsFlow flow.now }
    requires index { IsSome (fixed_on flow.now) → IsSome index }
    requires curve { due.is_forecast_of (due.views_of (option_copied index)) today flow.now ≡ true → IsSome curve }
    ensures value { let seen = due.views_of (option_copied index.entry) in
        result ≡ due.amount_of seen today (option_copied curve.entry) owner flow.now }
    ensures range { IfOk result (IsWithin MOST_AMOUNT) }
{
    match index {
        Some(index) => amount_on(flow, today, index, curve, owner),
        None => known_amount(flow),
    }
}

// Returns the amount of a flow without an index.
fn known_amount(flow: &FlowTerm) -> Result<Amount, Cause>
    requires flow { IsFlow flow.now }
    requires known { IsNone (fixed_on flow.now) }
    ensures value { (today : ℤ) (curve : Option Curve) (owner : ℕ)
        → result ≡ due.amount_of None today curve owner flow.now }
    ensures range { IfOk result (IsWithin MOST_AMOUNT) }
{
    match flow {
        FlowTerm::Known { amount, .. } => Ok(*amount),
        FlowTerm::Float { .. } | FlowTerm::Forward { .. } => unreachable!(),
    }
}

// Returns the amount of a flow on an index.
fn amount_on(
    flow: &FlowTerm,
    today: Day,
    index: &IndexUse<'_>,
    curve: Option<&CurveValue>,
    owner: ObjId,
) -> Result<Amount, Cause>
    requires flow { IsFlow flow.now }
    requires curve { is_forecast index.now.fixings.now today (fixed_on flow.now) ≡ true → IsSome curve }
    ensures value { result ≡ due.amount_on (due.view_of index.now) today (option_copied curve.entry) owner flow.now }
    ensures range { IfOk result (IsWithin MOST_AMOUNT) }
{
    match flow {
        FlowTerm::Known { amount, .. } => Ok(*amount),
        FlowTerm::Float {
            notional,
            spread,
            parts,
            fixing,
            ..
        } => float_amount(index, today, curve, *notional, *spread, *parts, *fixing),
        FlowTerm::Forward {
            notional,
            strike,
            fixing,
            ..
        } => forward_amount(index, today, curve, owner, *notional, *strike, *fixing),
    }
}

// Returns the interest at the rate of an index plus a spread.
fn float_amount(
    index: &IndexUse<'_>,
    today: Day,
    curve: Option<&CurveValue>,
    notional: Amount,
    spread: Rate,
    parts: YearParts,
    day: Day,
) -> Result<Amount, Cause>
    requires notional { IsNotional notional }
    requires spread { IsRate spread }
    requires parts { IsBetween (pos 0) MOST_PARTS parts }
    requires curve { is_forecast index.now.fixings.now today (Some day) ≡ true → IsSome curve }
    ensures value { let seen = due.view_of index.now in
        result ≡ due.float_amount seen today (option_copied curve.entry) notional spread parts day }
    ensures range { IfOk result (IsWithin MOST_AMOUNT) }
{
    let rate = fixing(index.object, index.terms, index.fixings, today, day, curve)?;
    Ok(interest(notional, sum(rate, spread), parts))
}

// Returns the settlement of a forward rate agreement at the rate of an index: first its fixing, then its period.
fn forward_amount(
    index: &IndexUse<'_>,
    today: Day,
    curve: Option<&CurveValue>,
    owner: ObjId,
    notional: Amount,
    strike: Rate,
    day: Day,
) -> Result<Amount, Cause>
    requires notional { IsNotional notional }
    requires strike { IsRate strike }
    requires curve { is_forecast index.now.fixings.now today (Some day) ≡ true → IsSome curve }
    ensures value { let seen = due.view_of index.now in
        result ≡ due.forward_amount seen today (option_copied curve.entry) owner notional strike day }
    ensures range { IfOk result (IsWithin MOST_AMOUNT) }
{
    let rate = fixing(index.object, index.terms, index.fixings, today, day, curve)?;
    let (value, maturity, parts) = period(index.object, index.terms, day)?;
    let _numbers = (value.number(), maturity.number());
    settlement(owner, notional, strike, parts, rate)
}
