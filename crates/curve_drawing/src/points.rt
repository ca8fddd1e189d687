// The points of lines as corners, and how far they reach.
ghost use Rattle.std.specs.Prelude.{◌≡◌, ◌≤◌, ◌≤ℤ◌, ◌-ℤ◌, ◌++◌, [], ◌∷◌, ◌^◌, ◌*◌, pos, IfOk, OnOk};
ghost use Rattle.curve_drawing.specs.Lines.{Line};
ghost use Rattle.curve_drawing.specs.Points.{digits_of, base_of, height_of, corner, corners_of, line_corners, all_corners, earlier, first_day, days_from, span_from, lowest, highest, first_height, some_height, dated_text, from_text, par_text, quoted_text, point_text};

use crate::{Plot, PlotLine, PlotPoint, PlotUnits};
use day_number::{Day, print_day};
use fixed_amount::print_decimal;
use std::alloc::{AllocError, Global};
use std::marker::Model;

// How many places factors and rates are printed with.
const FACTOR_PLACES: u8 = 12;

const RATE_PLACES: u8 = 9;

// A height in the plot, in units of the values that are drawn. A clause sees the number.
#[derive(Clone, Copy)]
pub(crate) struct Height(pub(crate) u128);

impl Model for Height {
    ghost use Rattle.std.specs.Prelude.{ℕ, ◌≤◌, ◌*◌, ◌^◌};

    ghost Value = { ℕ };

    ghost view = { λ h. h.0 };

    ghost invariant = { λ h. h.0 ≤ 5 * 10 ^ 12 };

    ghost inverse = { λ height. record { 0 = height } };
}

// A corner of a line: a day, and a height.
#[derive(Clone, Copy)]
pub(crate) struct Corner {
    pub(crate) day: Day,
    pub(crate) height: Height,
}

// How many places a value has.
pub(crate) fn digits_of(plot: Plot) -> u8
    ensures value { result ≡ digits_of plot }
    ensures few { result ≤ 12 }
{
    match plot {
        Plot::Factors => FACTOR_PLACES,
        Plot::Zeros | Plot::Forwards | Plot::Pars => RATE_PLACES,
    }
}

// The height of the value 0.
pub(crate) fn base_of(plot: Plot) -> u128
    ensures value { result ≡ base_of plot }
    ensures few { result ≤ 10 ^ 10 }
{
    match plot {
        Plot::Factors => 0,
        Plot::Zeros | Plot::Forwards | Plot::Pars => 10_000_000_000,
    }
}

// The same as a number that may be added to a value.
fn base_units(plot: Plot) -> i128
    ensures value { result ≡ pos (base_of plot) }
    ensures low { pos 0 ≤ℤ result }
    ensures high { result ≤ℤ pos (10 ^ 10) }
{
    match plot {
        Plot::Factors => 0,
        Plot::Zeros | Plot::Forwards | Plot::Pars => 10_000_000_000,
    }
}

// The height of a value.
pub(crate) fn height_of(plot: Plot, units: PlotUnits) -> Height
    ensures { result ≡ height_of plot units }
{
    Height((i128::from(units.0) + base_units(plot)).unsigned_abs())
}

// The corners of all lines, in order.
pub(crate) fn all_corners(
    alloc: Global,
    plot: Plot,
    lines: &[PlotLine],
) -> Result<Vec<Corner>, AllocError>
    ensures { IfOk result (λ corners. corners.items ≡ all_corners plot lines.now) }
{
    let mut corners = Vec::new(alloc);
    for line in lines {
        push_corners(plot, line.points(), &mut corners)?;
    }
    Ok(corners)
}

// Appends the corners of a line.
pub(crate) fn push_corners(
    plot: Plot,
    points: &[PlotPoint],
    out: &mut Vec<Corner>,
) -> Result<(), AllocError>
    ensures { OnOk result (out.new.items ≡ out.old.items ++ line_corners plot points.now) }
{
    for point in points {
        push_corners_of(plot, point, out)?;
    }
    Ok(())
}

// Appends the corners of a point: of a forward rate two.
fn push_corners_of(plot: Plot, point: &PlotPoint, out: &mut Vec<Corner>) -> Result<(), AllocError>
    ensures { OnOk result (out.new.items ≡ out.old.items ++ corners_of plot point.now) }
{
    let height = height_of(plot, point.units);
    match plot {
        Plot::Factors | Plot::Zeros | Plot::Pars => push_corner(point.until, height, out),
        Plot::Forwards => {
            push_corner(point.from, height, out)?;
            push_corner(point.until, height, out)
        }
    }
}

// Appends a corner.
fn push_corner(day: Day, height: Height, out: &mut Vec<Corner>) -> Result<(), AllocError>
    ensures { OnOk result (out.new.items ≡ out.old.items ++ corner day height ∷ []) }
{
    out.push(Corner { day, height })?;
    Ok(())
}

// The earliest day of the corners and of another day.
pub(crate) fn first_day(today: Day, corners: &[Corner]) -> Day
    ensures { result ≡ first_day today corners.now }
{
    let mut first = today;
    let mut left = corners.len();
    while left > 0 {
        left -= 1;
        first = earlier(corners[left].day, first);
    }
    first
}

// The earlier of two days.
fn earlier(day: Day, other: Day) -> Day
    ensures { result ≡ earlier day other }
{
    if day < other { day } else { other }
}

// The most days from a day to a corner, at least 1.
pub(crate) fn span_from(first: Day, corners: &[Corner]) -> u128
    ensures value { result ≡ span_from first corners.now }
    ensures low { 1 ≤ result }
    ensures high { result ≤ 110_000 }
{
    let mut span = 1;
    let mut left = corners.len();
    while left > 0 {
        left -= 1;
        span = days_from(first, corners[left].day).max(span);
    }
    span
}

// A height that is reached in any case: the factor 1, or else that of the first corner.
pub(crate) fn some_height(plot: Plot, corners: &[Corner]) -> u128
    ensures value { result ≡ some_height plot corners.now }
    ensures high { result ≤ 5 * 10 ^ 12 }
{
    match plot {
        Plot::Factors => 1_000_000_000_000,
        Plot::Zeros | Plot::Forwards | Plot::Pars => first_height(10_000_000_000, corners),
    }
}

// The height of the first corner, or another where there is none.
fn first_height(base: u128, corners: &[Corner]) -> u128
    requires { base ≤ 10 ^ 10 }
    ensures value { result ≡ first_height base corners.now }
    ensures high { result ≤ 5 * 10 ^ 12 }
{
    match corners {
        [] => base,
        [first, ..] => units_of(first.height),
    }
}

// The least height of the corners and another.
pub(crate) fn lowest(other: u128, corners: &[Corner]) -> u128
    requires { other ≤ 5 * 10 ^ 12 }
    ensures value { result ≡ lowest other corners.now }
    ensures high { result ≤ 5 * 10 ^ 12 }
{
    let mut low = other;
    let mut left = corners.len();
    while left > 0 {
        left -= 1;
        low = units_of(corners[left].height).min(low);
    }
    low
}

// The greatest height of the corners and another.
pub(crate) fn highest(other: u128, corners: &[Corner]) -> u128
    requires { other ≤ 5 * 10 ^ 12 }
    ensures value { result ≡ highest other corners.now }
    ensures high { result ≤ 5 * 10 ^ 12 }
{
    let mut high = other;
    let mut left = corners.len();
    while left > 0 {
        left -= 1;
        high = units_of(corners[left].height).max(high);
    }
    high
}

// How many days lie between two days.
pub(crate) fn days_from(from: Day, to: Day) -> u128
    ensures value { result ≡ days_from from to }
    ensures few { result ≤ 110_000 }
{
    u128::from(from.number().abs_diff(to.number()))
}

// The units of a height.
pub(crate) fn units_of(height: Height) -> u128
    ensures value { result ≡ height }
    ensures few { result ≤ 5 * 10 ^ 12 }
{
    height.0
}

// Appends the day of a point, and behind a separator its value; of a forward rate both days; of a par rate its quote too, and the residual.
pub(crate) fn push_point(
    alloc: Global,
    plot: Plot,
    point: &PlotPoint,
    separator: &[u8],
    out: &mut Vec<u8>,
) -> Result<(), AllocError>
    ensures { OnOk result (out.new.items ≡ out.old.items ++ point_text plot separator.now point.now) }
{
    let units = point.units;
    match plot {
        Plot::Factors => push_dated(alloc, separator, point.until, units, FACTOR_PLACES, out),
        Plot::Zeros => push_dated(alloc, separator, point.until, units, RATE_PLACES, out),
        Plot::Forwards => push_from(alloc, separator, point.from, point.until, units, out),
        Plot::Pars => push_quoted(alloc, separator, point, out),
    }
}

// Appends a day, and behind a separator a value of so many places.
#[tactic(auto, unfolding(crate::specs::Points::dated_text))]
fn push_dated(
    alloc: Global,
    separator: &[u8],
    day: Day,
    units: PlotUnits,
    places: u8,
    out: &mut Vec<u8>,
) -> Result<(), AllocError>
    requires { places ≤ 18 }
    ensures { OnOk result (out.new.items ≡ out.old.items ++ dated_text separator.now day units places) }
{
    print_day(alloc, day, out)?;
    out.extend_from_slice(separator)?;
    print_decimal(alloc, i128::from(units.0), places, out)
}

// Appends a day, and the same of a rate until another.
#[tactic(auto, unfolding(crate::specs::Points::from_text))]
fn push_from(
    alloc: Global,
    separator: &[u8],
    from: Day,
    until: Day,
    units: PlotUnits,
    out: &mut Vec<u8>,
) -> Result<(), AllocError>
    ensures { OnOk result (out.new.items ≡ out.old.items ++ from_text separator.now from until units) }
{
    print_day(alloc, from, out)?;
    out.extend_from_slice(separator)?;
    push_dated(alloc, separator, until, units, RATE_PLACES, out)
}

// Appends the day of a par rate, its quote, itself, and its residual.
#[tactic(auto, unfolding(crate::specs::Points::quoted_text))]
fn push_quoted(
    alloc: Global,
    separator: &[u8],
    point: &PlotPoint,
    out: &mut Vec<u8>,
) -> Result<(), AllocError>
    ensures { OnOk result (out.new.items ≡ out.old.items ++ quoted_text separator.now point.now) }
{
    let quoted = point.quoted;
    push_dated(alloc, separator, point.until, quoted, RATE_PLACES, out)?;
    out.extend_from_slice(separator)?;
    push_par(alloc, separator, point, out)
}

// Appends a par rate, and its residual.
#[tactic(auto, unfolding(crate::specs::Points::par_text))]
fn push_par(
    alloc: Global,
    separator: &[u8],
    point: &PlotPoint,
    out: &mut Vec<u8>,
) -> Result<(), AllocError>
    ensures { OnOk result (out.new.items ≡ out.old.items ++ par_text separator.now point.now) }
{
    print_decimal(alloc, i128::from(point.units.0), RATE_PLACES, out)?;
    out.extend_from_slice(separator)?;
    print_decimal(alloc, residual(point), RATE_PLACES, out)
}

// How far a par rate is above its quote.
fn residual(point: &PlotPoint) -> i128
    ensures { result ≡ point.now.units -ℤ point.now.quoted }
{
    i128::from(point.units.0) - i128::from(point.quoted.0)
}
