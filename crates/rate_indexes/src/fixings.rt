// The rate of an index on a day.
ghost use Rattle.std.specs.Prelude.{◌≡◌, true, Some, IsSome, IfOk, option_copied};
ghost use Rattle.flow_terms.specs.Fixings.{IsRate};
ghost use Rattle.flow_terms.specs.Flows.{is_forecast};
ghost use Rattle.rate_indexes.specs.Fixing.{fixing_of, forecast_by};

use crate::forecasts::forecast;
use curve_points::CurveValue;
use day_number::Day;
use desk_names::ObjId;
use desk_terms::Cause;
use fixed_amount::Rate;
use flow_terms::{Fixings, IndexTerms};

/// The rate of the index `x` that is fixed on a day (QuantLib's `InterestRateIndex::fixing`), within 10 either way. Of a
/// day before today it is the stored one, and without one `NoFixing`; of today the stored one, and without one the
/// forecast; of a later day the forecast, whatever is stored. The forecast's causes come in this order: `DateRange` of
/// the index where the value day or the maturity leaves the range, or the maturity is not after the value day; `Before`
/// and `Past` of the curve's owner at the value day, and then at the maturity; `RateRange` of the index where the part
/// of the year is 0, or the rate is beyond 10 either way. A curve is given where the rate has to be forecast. It takes
/// no memory.
#[tactic(auto, unfolding(crate::specs::Fixing::fixing_of))]
pub fn fixing(
    x: ObjId,
    terms: &IndexTerms,
    fixings: &Fixings,
    today: Day,
    day: Day,
    curve: Option<&CurveValue>,
) -> Result<Rate, Cause>
    requires { is_forecast fixings.now today (Some day) ≡ true → IsSome curve }
    ensures value { result ≡ fixing_of x terms.now fixings.now today day (option_copied curve.entry) }
    ensures range { IfOk result IsRate }
{
    if day > today {
        return forecast_by(x, terms, day, curve);
    }
    match fixings.get(day) {
        Some(rate) => Ok(rate),
        None if day < today => Err(Cause::NoFixing(x, day)),
        None => forecast_by(x, terms, day, curve),
    }
}

// The forecast from a curve that is given.
fn forecast_by(
    x: ObjId,
    terms: &IndexTerms,
    day: Day,
    curve: Option<&CurveValue>,
) -> Result<Rate, Cause>
    requires { IsSome curve }
    ensures value { result ≡ forecast_by x terms.now day (option_copied curve.entry) }
    ensures range { IfOk result IsRate }
{
    match curve {
        Some(curve) => forecast(x, terms, day, curve),
        None => unreachable!(),
    }
}
