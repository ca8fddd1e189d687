// Places in the picture, in hundredths of a pixel from its left and upper edge.
ghost use Rattle.std.specs.Prelude.{◌≡◌, ◌≤◌, ◌<◌, ◌*◌, ◌/◌, ◌^◌, ◌++◌, pos, OnOk};
ghost use Rattle.fixed_amount.specs.Decimal.{decimal_text};
ghost use Rattle.curve_drawing.specs.Scale.{IsScale};
ghost use Rattle.curve_drawing.specs.Places.{day_place, height_place, stride_place, step_place, px, placed};

use crate::points::{Height, days_from, units_of};
use crate::scale::Scale;
use day_number::Day;
use fixed_amount::print_decimal;
use std::alloc::{AllocError, Global};

// The left edge of the plot, and its width.
pub(crate) const LEFT: u128 = 7_000;

pub(crate) const WIDTH: u128 = 70_000;

// The lower edge of the plot, and its height.
pub(crate) const FOOT: u128 = 40_000;

pub(crate) const HEIGHT: u128 = 35_000;

// How many places a place in pixels is printed with.
const PLACES: u8 = 2;

// Where a day lies from the left.
#[tactic(auto, unfolding(crate::specs::Places::day_place))]
pub(crate) fn day_place(scale: &Scale, day: Day) -> u128
    requires { IsScale scale.now }
    ensures value { result ≡ day_place scale.now day }
    ensures few { result < 2 ^ 110 }
{
    LEFT + share(days_from(scale.first, day), WIDTH, scale.span)
}

// Where a height lies from above.
#[tactic(auto, unfolding(crate::specs::Places::height_place))]
pub(crate) fn height_place(scale: &Scale, height: Height) -> u128
    requires { IsScale scale.now }
    ensures value { result ≡ height_place scale.now height }
    ensures few { result < 2 ^ 110 }
{
    let above = units_of(height).saturating_sub(scale.low);
    FOOT.saturating_sub(share(above, HEIGHT, scale.rise))
}

// Where a mark of the axis of days lies from the left.
#[tactic(auto, unfolding(crate::specs::Places::stride_place))]
pub(crate) fn stride_place(scale: &Scale, mark: u128) -> u128
    requires scale { IsScale scale.now }
    requires mark { mark < 2 ^ 50 }
    ensures value { result ≡ stride_place scale.now mark }
    ensures few { result < 2 ^ 127 }
{
    let days = product(mark, scale.stride * scale.unit);
    LEFT + share(days, WIDTH, scale.span * 100)
}

// Where a mark of the axis of values lies from above.
#[tactic(auto, unfolding(crate::specs::Places::step_place))]
pub(crate) fn step_place(scale: &Scale, mark: u128) -> u128
    requires scale { IsScale scale.now }
    requires mark { mark < 2 ^ 50 }
    ensures value { result ≡ step_place scale.now mark }
    ensures few { result < 2 ^ 127 }
{
    let above = product(mark, scale.step);
    FOOT.saturating_sub(share(above, HEIGHT, scale.rise))
}

// So many steps.
pub(crate) fn product(count: u128, step: u128) -> u128
    requires count { count < 2 ^ 50 }
    requires step { step < 2 ^ 57 }
    ensures value { result ≡ count * step }
    ensures few { result < 2 ^ 107 }
{
    count * step
}

// A part of a whole as a part of a length, without what is left.
fn share(part: u128, length: u128, whole: u128) -> u128
    requires part { part < 2 ^ 107 }
    requires length { length < 2 ^ 17 }
    requires whole { 1 ≤ whole }
    ensures value { result ≡ part * length / whole }
    ensures few { result < 2 ^ 124 }
{
    part * length / whole
}

// Appends a text, and a place in pixels.
#[tactic(auto, unfolding(crate::specs::Places::placed))]
pub(crate) fn push_placed(
    alloc: Global,
    text: &[u8],
    place: u128,
    out: &mut Vec<u8>,
) -> Result<(), AllocError>
    requires { place < 2 ^ 127 }
    ensures { OnOk result (out.new.items ≡ out.old.items ++ placed text.now place) }
{
    out.extend_from_slice(text)?;
    push_px(alloc, place, out)
}

// Appends a place in pixels.
fn push_px(alloc: Global, place: u128, out: &mut Vec<u8>) -> Result<(), AllocError>
    requires { place < 2 ^ 127 }
    ensures { OnOk result (out.new.items ≡ out.old.items ++ px place) }
{
    print_decimal(alloc, signed(place), PLACES, out)
}

// A number that is 0 or more.
pub(crate) fn signed(number: u128) -> i128
    requires { number < 2 ^ 127 }
    ensures { result ≡ pos number }
{
    number as i128
}
