// The picture.
ghost use Rattle.std.specs.Prelude.{◌≡◌, ◌++◌, OnOk, OnErr, IfOk};
ghost use Rattle.curve_drawing.specs.Scale.{IsScale};
ghost use Rattle.curve_drawing.specs.Svg.{counted, counted_text, title_text, top_text, heading_text, picture_on, picture_text};

use crate::curves::push_curves;
use crate::marks::push_axes;
use crate::points::all_corners;
use crate::scale::{DAY, Scale, scale_of};
use crate::texts::{
    DAYS_FROM, FACTORS_ON, FOOTER, FORWARDS_ON, FRAME, HEAD, PARS_ON, TEXT_END, YEARS_FROM,
    ZEROS_ON,
};
use crate::{Plot, PlotLine};
use day_number::{Day, print_day};
use price_report::Namer;
use std::alloc::{AllocError, Global};

/// Appends the picture of lines: a line for each, with its points marked, axes of days and of values, and a legend with the
/// names of their owners. `today` is the day of the market that they come from. After want of memory `out` has its old
/// bytes.
pub fn picture(
    alloc: Global,
    plot: Plot,
    today: Day,
    lines: &[PlotLine],
    namer: &Namer<'_>,
    out: &mut Vec<u8>,
) -> Result<(), AllocError>
    ensures ok { OnOk result (out.new.items
        ≡ out.old.items ++ picture_text namer.now.names.now namer.now.of_object.now plot today lines.now) }
    ensures err { OnErr result (out.new.items ≡ out.old.items) }
{
    let picture = picture_of(alloc, plot, today, lines, namer)?;
    out.extend_from_slice(picture.as_slice())
}

// The picture in a vector of its own.
fn picture_of(
    alloc: Global,
    plot: Plot,
    today: Day,
    lines: &[PlotLine],
    namer: &Namer<'_>,
) -> Result<Vec<u8>, AllocError>
    ensures { IfOk result (λ picture. picture.items ≡ picture_text namer.now.names.now namer.now.of_object.now plot today lines.now) }
{
    let corners = all_corners(alloc, plot, lines)?;
    let scale = scale_of(plot, today, corners.as_slice());
    let mut picture = Vec::new(alloc);
    push_picture(alloc, today, &scale, lines, namer, &mut picture)?;
    Ok(picture)
}

// Appends the picture over a scale.
#[tactic(auto, unfolding(crate::specs::Svg::picture_on))]
fn push_picture(
    alloc: Global,
    today: Day,
    scale: &Scale,
    lines: &[PlotLine],
    namer: &Namer<'_>,
    out: &mut Vec<u8>,
) -> Result<(), AllocError>
    requires { IsScale scale.now }
    ensures { OnOk result (out.new.items
        ≡ out.old.items ++ picture_on namer.now.names.now namer.now.of_object.now today scale.now lines.now) }
{
    push_heading(alloc, today, scale, out)?;
    push_axes(alloc, scale, out)?;
    out.extend_from_slice(FRAME)?;
    push_curves(alloc, scale, lines, namer, out)?;
    out.extend_from_slice(FOOTER)
}

// Appends the heading, and what is counted below the plot.
#[tactic(auto, unfolding(crate::specs::Svg::heading_text))]
fn push_heading(
    alloc: Global,
    today: Day,
    scale: &Scale,
    out: &mut Vec<u8>,
) -> Result<(), AllocError>
    ensures { OnOk result (out.new.items ≡ out.old.items ++ heading_text today scale.now) }
{
    push_top(alloc, scale.plot, today, out)?;
    push_counted(alloc, scale.first, scale.unit, out)
}

// Appends what is drawn, and the day of the market.
fn push_top(alloc: Global, plot: Plot, today: Day, out: &mut Vec<u8>) -> Result<(), AllocError>
    ensures { OnOk result (out.new.items ≡ out.old.items ++ top_text plot today) }
{
    out.extend_from_slice(HEAD)?;
    out.extend_from_slice(title_of(plot))?;
    print_day(alloc, today, out)?;
    Ok(())
}

// What is drawn, in words.
#[tactic(auto, unfolding(crate::specs::Svg::title_text))]
fn title_of(plot: Plot) -> &'static [u8]
    ensures { result.now ≡ title_text plot }
{
    match plot {
        Plot::Factors => FACTORS_ON,
        Plot::Zeros => ZEROS_ON,
        Plot::Forwards => FORWARDS_ON,
        Plot::Pars => PARS_ON,
    }
}

// Appends what is counted below the plot, and from which day.
#[tactic(auto, unfolding(crate::specs::Svg::counted_text))]
fn push_counted(alloc: Global, first: Day, unit: u128, out: &mut Vec<u8>) -> Result<(), AllocError>
    ensures { OnOk result (out.new.items ≡ out.old.items ++ counted_text first unit) }
{
    out.extend_from_slice(counted(unit))?;
    print_day(alloc, first, out)?;
    out.extend_from_slice(TEXT_END)
}

// What is counted below the plot.
#[tactic(auto, unfolding(crate::specs::Svg::counted))]
fn counted(unit: u128) -> &'static [u8]
    ensures { result.now ≡ counted unit }
{
    if unit <= DAY { DAYS_FROM } else { YEARS_FROM }
}
