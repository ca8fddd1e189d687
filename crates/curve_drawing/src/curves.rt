// The curves.
ghost use Rattle.std.specs.Prelude.{◌≡◌, ◌≤◌, ◌<◌, ◌^◌, ◌++◌, OnOk};
ghost use Rattle.curve_drawing.specs.Scale.{IsScale};
ghost use Rattle.curve_drawing.specs.Svg.{colour_at, colour_of, corner_text, corners_text, marked_day, disk_title, disk_text, disks_text, entry_left, entry_foot, name_content, entry_text, group_text, line_text, curve_text, curves_text};

use crate::places::{day_place, height_place, push_placed};
use crate::points::{Corner, height_of, push_corners as push_line_corners, push_point};
use crate::scale::Scale;
use crate::texts::{
    CONTENT, DISK, DISK_DOWN, DISK_END, ENTRY, ENTRY_DOWN, ENTRY_NAME, FILLED, GROUP, GROUP_END,
    LINE, LINE_END, OPENED, SMALL_TITLE, TEXT_END, TITLE,
};
use crate::{Plot, PlotLine, PlotPoint};
use day_number::Day;
use price_report::Namer;
use std::alloc::{AllocError, Global};

// Appends the lines of curves.
pub(crate) fn push_curves(
    alloc: Global,
    scale: &Scale,
    lines: &[PlotLine],
    namer: &Namer<'_>,
    out: &mut Vec<u8>,
) -> Result<(), AllocError>
    requires { IsScale scale.now }
    ensures { OnOk result (out.new.items
        ≡ out.old.items ++ curves_text namer.now.names.now namer.now.of_object.now scale.now 0 lines.now) }
{
    let mut at: usize = 0;
    while at < lines.len() {
        push_curve(alloc, scale, at, &lines[at], namer, out)?;
        at += 1;
    }
    Ok(())
}

// Appends a curve: its line, its points, and its entry in the legend.
#[tactic(auto, unfolding(crate::specs::Svg::curve_text))]
fn push_curve(
    alloc: Global,
    scale: &Scale,
    at: usize,
    line: &PlotLine,
    namer: &Namer<'_>,
    out: &mut Vec<u8>,
) -> Result<(), AllocError>
    requires { IsScale scale.now }
    ensures { OnOk result (out.new.items
        ≡ out.old.items ++ curve_text namer.now.names.now namer.now.of_object.now scale.now at line.now) }
{
    let mut corners = Vec::new(alloc);
    push_line_corners(scale.plot, line.points(), &mut corners)?;
    push_group(at, out)?;
    push_line(alloc, scale, corners.as_slice(), out)?;
    push_disks(alloc, scale, line.points(), out)?;
    push_entry(alloc, at, namer.object(line.owner()), out)?;
    out.extend_from_slice(GROUP_END)
}

// Begins a group in the colour of a curve.
#[tactic(auto, unfolding(crate::specs::Svg::group_text))]
fn push_group(at: usize, out: &mut Vec<u8>) -> Result<(), AllocError>
    ensures { OnOk result (out.new.items ≡ out.old.items ++ group_text at) }
{
    let colour = colour_of(at);
    out.extend_from_slice(GROUP)?;
    out.extend_from_slice(colour)?;
    out.extend_from_slice(FILLED)?;
    out.extend_from_slice(colour)?;
    out.extend_from_slice(OPENED)
}

// Appends the line through these corners.
#[tactic(auto, unfolding(crate::specs::Svg::line_text))]
fn push_line(
    alloc: Global,
    scale: &Scale,
    corners: &[Corner],
    out: &mut Vec<u8>,
) -> Result<(), AllocError>
    requires { IsScale scale.now }
    ensures { OnOk result (out.new.items ≡ out.old.items ++ line_text scale.now corners.now) }
{
    out.extend_from_slice(LINE)?;
    push_corners(alloc, scale, corners, out)?;
    out.extend_from_slice(LINE_END)
}

// The colour of a curve.
#[tactic(auto, unfolding(crate::specs::Svg::colour_of))]
fn colour_of(at: usize) -> &'static [u8]
    ensures { result.now ≡ colour_of at }
{
    match at % 8 {
        0 => b"#1f77b4",
        1 => b"#d62728",
        2 => b"#2ca02c",
        3 => b"#ff7f0e",
        4 => b"#9467bd",
        5 => b"#8c564b",
        6 => b"#e377c2",
        _ => b"#17becf",
    }
}

// Appends the corners of a line.
fn push_corners(
    alloc: Global,
    scale: &Scale,
    corners: &[Corner],
    out: &mut Vec<u8>,
) -> Result<(), AllocError>
    requires { IsScale scale.now }
    ensures { OnOk result (out.new.items ≡ out.old.items ++ corners_text scale.now corners.now) }
{
    for corner in corners {
        push_corner(alloc, scale, corner, out)?;
    }
    Ok(())
}

// Appends a corner of a line.
#[tactic(auto, unfolding(crate::specs::Svg::corner_text))]
fn push_corner(
    alloc: Global,
    scale: &Scale,
    corner: &Corner,
    out: &mut Vec<u8>,
) -> Result<(), AllocError>
    requires { IsScale scale.now }
    ensures { OnOk result (out.new.items ≡ out.old.items ++ corner_text scale.now corner.now) }
{
    push_placed(alloc, b" ", day_place(scale, corner.day), out)?;
    push_placed(alloc, b",", height_place(scale, corner.height), out)
}

// Appends the points as disks.
fn push_disks(
    alloc: Global,
    scale: &Scale,
    points: &[PlotPoint],
    out: &mut Vec<u8>,
) -> Result<(), AllocError>
    requires { IsScale scale.now }
    ensures { OnOk result (out.new.items ≡ out.old.items ++ disks_text scale.now points.now) }
{
    for point in points {
        push_disk(alloc, scale, point, out)?;
    }
    Ok(())
}

// Appends a disk, whose title says the point.
#[tactic(auto, unfolding(crate::specs::Svg::disk_text))]
fn push_disk(
    alloc: Global,
    scale: &Scale,
    point: &PlotPoint,
    out: &mut Vec<u8>,
) -> Result<(), AllocError>
    requires { IsScale scale.now }
    ensures { OnOk result (out.new.items ≡ out.old.items ++ disk_text scale.now point.now) }
{
    let day = marked_day(scale.plot, point);
    let height = height_of(scale.plot, point.units);
    push_placed(alloc, DISK, day_place(scale, day), out)?;
    push_placed(alloc, DISK_DOWN, height_place(scale, height), out)?;
    out.extend_from_slice(disk_title(scale.plot))?;
    push_point(alloc, scale.plot, point, b" ", out)?;
    out.extend_from_slice(DISK_END)
}

// The day at which a point is marked: a forward rate at its first.
#[tactic(auto, unfolding(crate::specs::Svg::marked_day))]
fn marked_day(plot: Plot, point: &PlotPoint) -> Day
    ensures { result ≡ marked_day plot point.now }
{
    match plot {
        Plot::Factors | Plot::Zeros | Plot::Pars => point.until,
        Plot::Forwards => point.from,
    }
}

// What the title of a disk begins with, which is smaller where there are many.
#[tactic(auto, unfolding(crate::specs::Svg::disk_title))]
fn disk_title(plot: Plot) -> &'static [u8]
    ensures { result.now ≡ disk_title plot }
{
    match plot {
        Plot::Factors | Plot::Pars => TITLE,
        Plot::Zeros | Plot::Forwards => SMALL_TITLE,
    }
}

// Appends an entry of the legend.
#[tactic(auto, unfolding(crate::specs::Svg::entry_text))]
fn push_entry(alloc: Global, at: usize, name: &[u8], out: &mut Vec<u8>) -> Result<(), AllocError>
    ensures { OnOk result (out.new.items ≡ out.old.items ++ entry_text at name.now) }
{
    let left = entry_left(at);
    let foot = entry_foot(at);
    push_placed(alloc, ENTRY, left, out)?;
    push_placed(alloc, b" ", foot, out)?;
    push_placed(alloc, ENTRY_NAME, left + 3_200, out)?;
    push_placed(alloc, ENTRY_DOWN, foot, out)?;
    push_name(name, out)
}

// Appends a name as the content of an element.
#[tactic(auto, unfolding(crate::specs::Svg::name_content))]
fn push_name(name: &[u8], out: &mut Vec<u8>) -> Result<(), AllocError>
    ensures { OnOk result (out.new.items ≡ out.old.items ++ name_content name.now) }
{
    out.extend_from_slice(CONTENT)?;
    out.extend_from_slice(name)?;
    out.extend_from_slice(TEXT_END)
}

// Where an entry lies from the left.
#[tactic(auto, unfolding(crate::specs::Svg::entry_left))]
fn entry_left(at: usize) -> u128
    ensures value { result ≡ entry_left at }
    ensures few { result < 2 ^ 100 }
{
    7_000 + (at % 2) as u128 * 35_000
}

// Where an entry lies from above.
#[tactic(auto, unfolding(crate::specs::Svg::entry_foot))]
fn entry_foot(at: usize) -> u128
    ensures value { result ≡ entry_foot at }
    ensures few { result < 2 ^ 100 }
{
    45_600 + (at / 2) as u128 * 1_600
}
