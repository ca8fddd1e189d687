// What lies where in a picture of curves.
ghost use Rattle.std.specs.Prelude.{◌≡◌, ◌≤◌, true};
ghost use Rattle.std.specs.List.{list_all};
ghost use Rattle.curve_drawing.specs.Scale.{IsScale, is_step, first_from, unit_for, stride_for, step_for, multiple_from, scale_of};

use crate::Plot;
use crate::points::{Corner, first_day, highest, lowest, some_height, span_from};
use day_number::Day;

// The steps that the axis of values may have, in their units: for factors from 0.0000001 on, for rates from 0.0001 on.
pub(crate) const STEPS: [u128; 20] = [
    100_000,
    200_000,
    500_000,
    1_000_000,
    2_000_000,
    5_000_000,
    10_000_000,
    20_000_000,
    50_000_000,
    100_000_000,
    200_000_000,
    500_000_000,
    1_000_000_000,
    2_000_000_000,
    5_000_000_000,
    10_000_000_000,
    20_000_000_000,
    50_000_000_000,
    100_000_000_000,
    200_000_000_000,
];

// The greatest of them.
pub(crate) const MOST_STEP: u128 = 500_000_000_000;

// A day and a year of 365.25 days in hundredths of a day.
pub(crate) const DAY: u128 = 100;

pub(crate) const YEAR: u128 = 36_525;

// How many days the axis of days counts at most: a longer one counts years.
pub(crate) const MOST_DAYS: u128 = 1_000;

// How many days, or years, may lie between two marks.
pub(crate) const STRIDES: [u128; 6] = [1, 2, 5, 10, 20, 50];

// The most of them.
pub(crate) const MOST_STRIDE: u128 = 100;

// What lies where: the axis of days begins at `first` and reaches `span` days on, and counts in units of so many hundredths
// of a day, with a mark every `stride` units; that of values begins at `low` units and reaches `rise` units on, with a mark
// every `step` units.
#[derive(Clone, Copy)]
pub(crate) struct Scale {
    pub(crate) plot: Plot,
    pub(crate) first: Day,
    pub(crate) span: u128,
    pub(crate) unit: u128,
    pub(crate) stride: u128,
    pub(crate) low: u128,
    pub(crate) step: u128,
    pub(crate) rise: u128,
}

// The scale for these corners, the axis of days beginning at a day at the latest.
#[tactic(auto, unfolding(crate::specs::Scale::scale_of))]
pub(crate) fn scale_of(plot: Plot, today: Day, corners: &[Corner]) -> Scale
    ensures value { result ≡ scale_of plot today corners.now }
    ensures scale { IsScale result }
{
    let first = first_day(today, corners);
    let span = span_from(first, corners);
    let other = some_height(plot, corners);
    let lowest = lowest(other, corners);
    let highest = highest(other, corners);
    let step = step_for(highest.saturating_sub(lowest));
    let low = lowest - lowest % step;
    let unit = unit_for(span);
    Scale {
        plot,
        first,
        span,
        unit,
        stride: stride_for(span, unit),
        low,
        step,
        rise: multiple_from(highest.saturating_sub(low), step),
    }
}

// The step of the axis of values: at most ten steps reach so many units.
fn step_for(reach: u128) -> u128
    ensures value { result ≡ step_for reach }
    ensures low { 1 ≤ result }
    ensures high { result ≤ 1_000_000_000_000 }
{
    first_from(reach.div_ceil(10), &STEPS, MOST_STEP)
}

// What the axis of days counts: days, or where those are many, years.
fn unit_for(span: u128) -> u128
    ensures value { result ≡ unit_for span }
    ensures low { 1 ≤ result }
    ensures high { result ≤ 100_000 }
{
    if span <= MOST_DAYS { DAY } else { YEAR }
}

// How many of these lie between two marks: at most ten times as many reach so many days.
fn stride_for(span: u128, unit: u128) -> u128
    requires span { span ≤ 110_000 }
    requires unit { 1 ≤ unit }
    ensures value { result ≡ stride_for span unit }
    ensures low { 1 ≤ result }
    ensures high { result ≤ 1_000_000_000_000 }
{
    first_from((span * 10).div_ceil(unit), &STRIDES, MOST_STRIDE)
}

// The least multiple of a step that reaches so many units, and at least the step.
fn multiple_from(reach: u128, step: u128) -> u128
    requires reach { reach ≤ 10_000_000_000_000 }
    requires low { 1 ≤ step }
    requires high { step ≤ 1_000_000_000_000 }
    ensures value { result ≡ multiple_from reach step }
    ensures low { 1 ≤ result }
    ensures high { result ≤ 100_000_000_000_000 }
{
    (reach + (step - reach % step) % step).max(step)
}

// The first of these steps that is at least so long, or else the last.
fn first_from(need: u128, steps: &[u128], last: u128) -> u128
    requires steps { list_all is_step steps.now ≡ true }
    requires last { is_step last ≡ true }
    ensures value { result ≡ first_from need steps.now last }
    ensures low { 1 ≤ result }
    ensures high { result ≤ 1_000_000_000_000 }
{
    for step in steps {
        if need <= *step {
            return *step;
        }
    }
    last
}
