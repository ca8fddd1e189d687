// The axes.
ghost use Rattle.std.specs.Prelude.{◌≡◌, ◌≤◌, ◌<◌, ◌-◌, ◌^◌, ◌++◌, OnOk};
ghost use Rattle.curve_drawing.specs.Points.{digits_of};
ghost use Rattle.curve_drawing.specs.Scale.{IsScale};
ghost use Rattle.curve_drawing.specs.Svg.{stride_count, stride_mark, strides_below, step_count, places_for, places_of, value_text, mark_text, step_mark, steps_below, axes_text};

use crate::Plot;
use crate::places::{product, push_placed, signed, step_place, stride_place};
use crate::points::{base_of, digits_of};
use crate::scale::Scale;
use crate::texts::{BELOW, BESIDE, CENTRED, FLUSH, RIGHTWARDS, TEXT_END, UPWARDS};
use fixed_amount::print_decimal;
use std::alloc::{AllocError, Global};

// Appends the marks of both axes.
#[tactic(auto, unfolding(crate::specs::Svg::axes_text))]
pub(crate) fn push_axes(alloc: Global, scale: &Scale, out: &mut Vec<u8>) -> Result<(), AllocError>
    requires { IsScale scale.now }
    ensures { OnOk result (out.new.items ≡ out.old.items ++ axes_text scale.now) }
{
    push_strides(alloc, scale, stride_count(scale), out)?;
    push_steps(alloc, scale, step_count(scale), out)
}

// How many marks the axis of days has.
fn stride_count(scale: &Scale) -> u128
    requires { IsScale scale.now }
    ensures value { result ≡ stride_count scale.now }
    ensures few { result ≤ 2 ^ 49 }
{
    scale.span * 100 / (scale.stride * scale.unit) + 1
}

// How many marks the axis of values has.
fn step_count(scale: &Scale) -> u128
    requires { IsScale scale.now }
    ensures value { result ≡ step_count scale.now }
    ensures few { result ≤ 2 ^ 49 }
{
    scale.rise / scale.step + 1
}

// Appends the first marks of the axis of days, as many as are given.
fn push_strides(
    alloc: Global,
    scale: &Scale,
    count: u128,
    out: &mut Vec<u8>,
) -> Result<(), AllocError>
    requires scale { IsScale scale.now }
    requires few { count ≤ 2 ^ 49 }
    ensures { OnOk result (out.new.items ≡ out.old.items ++ strides_below scale.now count) }
{
    for mark in 0..count {
        push_stride(alloc, scale, mark, out)?;
    }
    Ok(())
}

// Appends a mark of the axis of years: a line upwards, and how many years lie there.
#[tactic(auto, unfolding(crate::specs::Svg::stride_mark))]
fn push_stride(
    alloc: Global,
    scale: &Scale,
    mark: u128,
    out: &mut Vec<u8>,
) -> Result<(), AllocError>
    requires scale { IsScale scale.now }
    requires few { mark < 2 ^ 49 }
    ensures { OnOk result (out.new.items ≡ out.old.items ++ stride_mark scale.now mark) }
{
    let place = stride_place(scale, mark);
    push_placed(alloc, UPWARDS, place, out)?;
    push_placed(alloc, BELOW, place, out)?;
    out.extend_from_slice(CENTRED)?;
    print_decimal(alloc, signed(product(mark, scale.stride)), 0, out)?;
    out.extend_from_slice(TEXT_END)
}

// Appends the first marks of the axis of values, as many as are given.
fn push_steps(
    alloc: Global,
    scale: &Scale,
    count: u128,
    out: &mut Vec<u8>,
) -> Result<(), AllocError>
    requires scale { IsScale scale.now }
    requires few { count ≤ 2 ^ 49 }
    ensures { OnOk result (out.new.items ≡ out.old.items ++ steps_below scale.now count) }
{
    for mark in 0..count {
        push_step(alloc, scale, mark, out)?;
    }
    Ok(())
}

// Appends a mark of the axis of values: a line to the right, and the value there.
#[tactic(auto, unfolding(crate::specs::Svg::step_mark))]
fn push_step(alloc: Global, scale: &Scale, mark: u128, out: &mut Vec<u8>) -> Result<(), AllocError>
    requires scale { IsScale scale.now }
    requires few { mark < 2 ^ 49 }
    ensures { OnOk result (out.new.items ≡ out.old.items ++ step_mark scale.now mark) }
{
    let place = step_place(scale, mark);
    push_placed(alloc, RIGHTWARDS, place, out)?;
    push_placed(alloc, BESIDE, place, out)?;
    out.extend_from_slice(FLUSH)?;
    push_mark(alloc, scale, mark, out)?;
    out.extend_from_slice(TEXT_END)
}

// Appends the value at a mark.
#[tactic(auto, unfolding(crate::specs::Svg::mark_text))]
fn push_mark(alloc: Global, scale: &Scale, mark: u128, out: &mut Vec<u8>) -> Result<(), AllocError>
    requires scale { IsScale scale.now }
    requires few { mark < 2 ^ 49 }
    ensures { OnOk result (out.new.items ≡ out.old.items ++ mark_text scale.now mark) }
{
    let height = scale.low + product(mark, scale.step);
    let places = places_of(scale.plot, scale.step);
    let unit = unit_of(digits_of(scale.plot) - places);
    push_value(alloc, base_of(scale.plot), height, unit, places, out)
}

// Appends a height as a value of so many places, where the last has this unit.
fn push_value(
    alloc: Global,
    base: u128,
    height: u128,
    unit: u128,
    places: u8,
    out: &mut Vec<u8>,
) -> Result<(), AllocError>
    requires base { base < 2 ^ 110 }
    requires height { height < 2 ^ 110 }
    requires unit { 1 ≤ unit }
    requires places { places ≤ 18 }
    ensures { OnOk result (out.new.items ≡ out.old.items ++ value_text base height unit places) }
{
    print_decimal(
        alloc,
        signed(height / unit) - signed(base / unit),
        places,
        out,
    )
}

// How many places the values at the marks have.
fn places_of(plot: Plot, step: u128) -> u8
    ensures value { result ≡ places_of plot step }
    ensures few { result ≤ digits_of plot }
{
    places_for(step).saturating_sub(12 - digits_of(plot))
}

// How many places factors at the marks have: as many as the step.
fn places_for(step: u128) -> u8
    ensures value { result ≡ places_for step }
    ensures few { result ≤ 7 }
{
    if step >= 100_000_000_000 {
        1
    } else if step >= 10_000_000_000 {
        2
    } else if step >= 1_000_000_000 {
        3
    } else if step >= 100_000_000 {
        4
    } else if step >= 10_000_000 {
        5
    } else if step >= 1_000_000 {
        6
    } else {
        7
    }
}

// The unit of the last of so many places.
fn unit_of(places: u8) -> u128
    requires { places ≤ 12 }
    ensures value { result ≡ 10 ^ places }
    ensures some { 1 ≤ result }
{
    10u128.pow(u32::from(places))
}
