// The par rates of the helpers of a curve.
ghost use Rattle.std.specs.Prelude.{◌≡◌, ◌≢◌, All, IfOk};
ghost use Rattle.curve_terms.specs.Terms.{IsHelper};
ghost use Rattle.curve_bootstrap.specs.Par.{IsWithinTen};
ghost use Rattle.rate_indexes.specs.Forecast.{rate_or_cause};
ghost use Rattle.curve_drawing.specs.Pars.{beside, cause_of, par_point, quoted_in, par_points};
ghost use Rattle.curve_drawing.specs.PlotPoints.{PointsAre};

use crate::lines::{PlotPoint, PlotUnits};
use crate::rates::ranged;
use curve_bootstrap::{HelperFault, ParRate, par_rate};
use curve_points::CurveValue;
use curve_terms::Helper;
use desk_names::ObjId;
use desk_terms::Cause;
use fixed_amount::Rate;
use holiday_calendars::Calendar;
use std::alloc::{AllocError, Global};

/// The helpers that a curve is built from, over its calendar, with the rates of their quotes in the same order.
#[derive(Clone, Copy)]
pub struct Quoted<'a> {
    pub cal: &'a Calendar,
    pub helpers: &'a [Helper],
    pub rates: &'a [Rate],
}

// The par rates of helpers beside their quotes, as far as there are both.
pub(crate) fn par_points(
    alloc: Global,
    curve: &CurveValue,
    quoted: &Quoted<'_>,
) -> Result<Result<Vec<PlotPoint>, Cause>, AllocError>
    requires { All IsHelper quoted.now.helpers.now }
    ensures { IfOk result (λ given. PointsAre given (par_points (quoted_in quoted.now) curve.now)) }
{
    let mut points = Vec::new(alloc);
    let count = quoted.helpers.len().min(quoted.rates.len());
    let mut at: usize = 0;
    while at < count {
        match par_point(
            alloc,
            curve,
            quoted.cal,
            &quoted.helpers[at],
            quoted.rates[at],
        )? {
            Ok(point) => points.push(point)?,
            Err(cause) => return Ok(Err(cause)),
        }
        at += 1;
    }
    Ok(Ok(points))
}

// The par rate of a helper beside its quote.
fn par_point(
    alloc: Global,
    curve: &CurveValue,
    cal: &Calendar,
    helper: &Helper,
    quote: Rate,
) -> Result<Result<PlotPoint, Cause>, AllocError>
    requires { IsHelper helper.now }
    ensures { IfOk result (λ point. point ≡ par_point cal.now curve.now helper.now quote) }
{
    match par_rate(alloc, cal, curve, helper) {
        Ok(par) => Ok(beside(curve.owner(), par, quote)),
        Err(HelperFault::NoMemory) => Err(AllocError),
        Err(fault) => Ok(Err(cause_of(curve.owner(), fault))),
    }
}

// A par rate beside a quote that is within 10 either way.
fn beside(owner: ObjId, par: ParRate, quote: Rate) -> Result<PlotPoint, Cause>
    requires { IsWithinTen par }
    ensures { result ≡ beside par (rate_or_cause owner quote) }
{
    let quote = ranged(owner, i128::from(quote.units()))?;
    Ok(PlotPoint {
        from: par.end,
        until: par.end,
        units: PlotUnits(par.rate.units()),
        quoted: PlotUnits(quote.units()),
    })
}

// Why there is no par rate, as it is told of the curve's owner.
fn cause_of(owner: ObjId, fault: HelperFault) -> Cause
    ensures { result ≡ cause_of owner fault }
{
    match fault {
        HelperFault::DateRange => Cause::DateRange(owner),
        HelperFault::Pillar
        | HelperFault::RateRange
        | HelperFault::Negative
        | HelperFault::Discount
        | HelperFault::NoMemory => Cause::RateRange(owner),
    }
}
