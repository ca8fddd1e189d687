// What is drawn of a curve.
ghost use Rattle.std.specs.Prelude.{◌≡◌, ◌≤◌, ◌++◌, [], ◌∷◌, map, All, OnOk, IfOk, if◌then◌else◌};
ghost use Rattle.curve_points.specs.Curve.{points};
ghost use Rattle.curve_terms.specs.Terms.{IsHelper};
ghost use Rattle.flow_terms.specs.Fixings.{IsRate};
ghost use Rattle.curve_drawing.specs.Lines.{factor_point, rate_point, rate_points, rates_to, last_node, plotted, line_of};
ghost use Rattle.curve_drawing.specs.Pars.{quoted_in};
ghost use Rattle.curve_drawing.specs.PlotPoints.{PointsAre};

use crate::days::days_of;
use crate::pars::{Quoted, par_points};
use crate::rates::rate_between;
use curve_points::{CurveNode, CurveValue, ONE};
use day_number::Day;
use desk_names::ObjId;
use desk_terms::Cause;
use fixed_amount::Rate;
use std::alloc::{AllocError, Global};
use std::marker::Model;

/// What is drawn of curves.
#[derive(Clone, Copy, PartialEq, Eq)]
pub enum Plot {
    /// Discount factors: those of the reference day and of the nodes.
    Factors,
    /// Simple zero rates: from the reference day to each month's day after it, and to the last node.
    Zeros,
    /// Simple forward rates over three months, one after the other from the reference day; the last ends at the last node.
    Forwards,
    /// Par rates of the curve's helpers, each at the end of its helper, beside their quotes.
    Pars,
}

/// A point: a value that is one from a day until another, which is the same day for a discount factor, and what is quoted for it: of a par
/// rate the quote of its helper, of all else the value itself.
#[derive(Clone, Copy)]
pub struct PlotPoint {
    pub from: Day,
    pub until: Day,
    pub units: PlotUnits,
    pub quoted: PlotUnits,
}

/// A discount factor in units of 10^-12, or a rate in units of 10^-9: at most 4 * 10^12 either way. A clause sees the number.
#[derive(Clone, Copy)]
pub struct PlotUnits(pub i64);

impl Model for PlotUnits {
    ghost use Rattle.std.specs.Prelude.{ℤ, ◌≤◌, ◌*◌, ◌^◌, unsigned_abs};

    ghost Value = { ℤ };

    ghost view = { λ u. u.0 };

    ghost invariant = { λ u. unsigned_abs u.0 ≤ 4 * 10 ^ 12 };

    ghost inverse = { λ units. record { 0 = units } };
}

/// What is drawn of a curve: the object that it is of, and its points. A clause sees the points as a list.
#[derive(Drop)]
pub struct PlotLine {
    owner: ObjId,
    points: Vec<PlotPoint>,
}

impl Model for PlotLine {
    ghost use Rattle.curve_drawing.specs.Lines.{Line};

    ghost Value = { Line };

    ghost view = { λ l. record { owner = l.owner; points = l.points.items } };
}

impl PlotLine {
    ghost use Rattle.std.specs.Prelude.{◌≡◌};

    /// The object whose curve it is of.
    pub fn owner(&self) -> ObjId
        ensures { result ≡ self.now.owner }
    {
        self.owner
    }

    /// Its points, in the order of time.
    pub fn points(&self) -> &[PlotPoint]
        ensures { result.now ≡ self.now.points }
    {
        &self.points
    }
}

/// What is drawn of a curve with these helpers. A rate is refused with `RateRange` of its owner where it is beyond 10 either way, and the
/// first that is refused is the answer; so is a par rate that there is not, or with `DateRange` where a day of its helper leaves the
/// range.
pub fn line_of(
    alloc: Global,
    curve: &CurveValue,
    quoted: &Quoted<'_>,
    plot: Plot,
) -> Result<Result<PlotLine, Cause>, AllocError>
    requires { All IsHelper quoted.now.helpers.now }
    ensures { IfOk result (λ line. line ≡ line_of plot (quoted_in quoted.now) curve.now) }
{
    let owner = curve.owner();
    match plotted(alloc, curve, quoted, plot)? {
        Ok(points) => Ok(Ok(PlotLine { owner, points })),
        Err(cause) => Ok(Err(cause)),
    }
}

// The points that are drawn of a curve.
fn plotted(
    alloc: Global,
    curve: &CurveValue,
    quoted: &Quoted<'_>,
    plot: Plot,
) -> Result<Result<Vec<PlotPoint>, Cause>, AllocError>
    requires { All IsHelper quoted.now.helpers.now }
    ensures { IfOk result (λ given. PointsAre given (plotted plot (quoted_in quoted.now) curve.now)) }
{
    match plot {
        Plot::Factors => Ok(Ok(factor_points(alloc, curve)?)),
        Plot::Zeros => rates_to(alloc, curve, false, 1),
        Plot::Forwards => rates_to(alloc, curve, true, 3),
        Plot::Pars => par_points(alloc, curve, quoted),
    }
}

// The factors of the reference day and of the nodes.
fn factor_points(alloc: Global, curve: &CurveValue) -> Result<Vec<PlotPoint>, AllocError>
    ensures { IfOk result (λ made. made.items ≡ map factor_point (points curve.now)) }
{
    let mut made = Vec::new(alloc);
    made.push(PlotPoint {
        from: curve.reference(),
        until: curve.reference(),
        units: PlotUnits(ONE),
        quoted: PlotUnits(ONE),
    })?;
    push_factors(curve.nodes(), &mut made)?;
    Ok(made)
}

// Appends the factors of nodes.
fn push_factors(nodes: &[CurveNode], made: &mut Vec<PlotPoint>) -> Result<(), AllocError>
    ensures { OnOk result (made.new.items ≡ made.old.items ++ map factor_point nodes.now) }
{
    for node in nodes {
        push_factor(node, made)?;
    }
    Ok(())
}

// Appends the factor of a node.
fn push_factor(node: &CurveNode, made: &mut Vec<PlotPoint>) -> Result<(), AllocError>
    ensures { OnOk result (made.new.items ≡ made.old.items ++ factor_point node.now ∷ []) }
{
    made.push(PlotPoint {
        from: node.day,
        until: node.day,
        units: PlotUnits(node.factor.units()),
        quoted: PlotUnits(node.factor.units()),
    })?;
    Ok(())
}

// The rates of the days of a curve up to its last node.
fn rates_to(
    alloc: Global,
    curve: &CurveValue,
    rolls: bool,
    every: usize,
) -> Result<Result<Vec<PlotPoint>, Cause>, AllocError>
    requires { every ≤ 12 }
    ensures { IfOk result (λ given. PointsAre given (rates_to rolls every curve.now (last_node curve.now))) }
{
    match curve.nodes().last() {
        None => Ok(Ok(Vec::new(alloc))),
        Some(node) => {
            let days = days_of(alloc, curve.reference(), node.day, every)?;
            rate_points(alloc, curve, rolls, days.as_slice())
        }
    }
}

// The rates to these days: all from the reference day, or each from the day before it.
fn rate_points(
    alloc: Global,
    curve: &CurveValue,
    rolls: bool,
    days: &[Day],
) -> Result<Result<Vec<PlotPoint>, Cause>, AllocError>
    ensures { IfOk result (λ given. PointsAre given (rate_points rolls curve.now curve.now.reference days.now)) }
{
    let mut points = Vec::new(alloc);
    let mut from = curve.reference();
    for day in days {
        match rate_between(curve, from, *day) {
            Ok(rate) => push_rate(from, *day, rate, &mut points)?,
            Err(cause) => return Ok(Err(cause)),
        }
        from = next_from(rolls, from, *day);
    }
    Ok(Ok(points))
}

// The day from which the next rate is.
fn next_from(rolls: bool, from: Day, day: Day) -> Day
    ensures { result ≡ (if rolls then day else from) }
{
    if rolls { day } else { from }
}

// Appends a rate.
fn push_rate(
    from: Day,
    until: Day,
    rate: Rate,
    points: &mut Vec<PlotPoint>,
) -> Result<(), AllocError>
    requires { IsRate rate }
    ensures { OnOk result (points.new.items ≡ points.old.items ++ rate_point from until rate ∷ []) }
{
    points.push(PlotPoint {
        from,
        until,
        units: PlotUnits(rate.units()),
        quoted: PlotUnits(rate.units()),
    })?;
    Ok(())
}
