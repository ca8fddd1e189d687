// The points of lines as lines of comma-separated values.
ghost use Rattle.std.specs.Prelude.{◌≡◌, ◌++◌, OnOk, OnErr, IfOk, codes};
ghost use Rattle.curve_drawing.specs.Table.{row_text, rows_text, line_rows, lines_rows, table_heading, table_text};

use crate::points::push_point;
use crate::{Plot, PlotLine, PlotPoint};
use price_report::Namer;
use std::alloc::{AllocError, Global};

/// Appends the points of lines as comma-separated values below a heading. After want of memory `out` has its old bytes.
pub fn table(
    alloc: Global,
    plot: Plot,
    lines: &[PlotLine],
    namer: &Namer<'_>,
    out: &mut Vec<u8>,
) -> Result<(), AllocError>
    ensures ok { OnOk result (out.new.items
        ≡ out.old.items ++ table_text namer.now.names.now namer.now.of_object.now plot lines.now) }
    ensures err { OnErr result (out.new.items ≡ out.old.items) }
{
    let table = table_of(alloc, plot, lines, namer)?;
    out.extend_from_slice(table.as_slice())
}

// The table in a vector of its own.
#[tactic(auto, unfolding(crate::specs::Table::table_text))]
fn table_of(
    alloc: Global,
    plot: Plot,
    lines: &[PlotLine],
    namer: &Namer<'_>,
) -> Result<Vec<u8>, AllocError>
    ensures { IfOk result (λ table. table.items ≡ table_text namer.now.names.now namer.now.of_object.now plot lines.now) }
{
    let mut table = Vec::new(alloc);
    table.extend_from_slice(heading_of(plot))?;
    push_lines(alloc, plot, lines, namer, &mut table)?;
    Ok(table)
}

// The heading of a table.
#[tactic(auto, unfolding(crate::specs::Table::table_heading))]
fn heading_of(plot: Plot) -> &'static [u8]
    ensures { result.now ≡ table_heading plot }
{
    match plot {
        Plot::Factors => b"curve,day,discount\n",
        Plot::Zeros => b"curve,day,zero\n",
        Plot::Forwards => b"curve,from,until,forward\n",
        Plot::Pars => b"curve,day,quoted,par,residual\n",
    }
}

// Appends the rows of the lines.
fn push_lines(
    alloc: Global,
    plot: Plot,
    lines: &[PlotLine],
    namer: &Namer<'_>,
    out: &mut Vec<u8>,
) -> Result<(), AllocError>
    ensures { OnOk result (out.new.items
        ≡ out.old.items ++ lines_rows namer.now.names.now namer.now.of_object.now plot lines.now) }
{
    for line in lines {
        push_line(alloc, plot, line, namer, out)?;
    }
    Ok(())
}

// Appends the rows of a line.
fn push_line(
    alloc: Global,
    plot: Plot,
    line: &PlotLine,
    namer: &Namer<'_>,
    out: &mut Vec<u8>,
) -> Result<(), AllocError>
    ensures { OnOk result (out.new.items
        ≡ out.old.items ++ line_rows namer.now.names.now namer.now.of_object.now plot line.now) }
{
    push_rows(alloc, plot, namer.object(line.owner()), line.points(), out)
}

// Appends a row for each point.
fn push_rows(
    alloc: Global,
    plot: Plot,
    name: &[u8],
    points: &[PlotPoint],
    out: &mut Vec<u8>,
) -> Result<(), AllocError>
    ensures { OnOk result (out.new.items ≡ out.old.items ++ rows_text plot name.now points.now) }
{
    for point in points {
        push_row(alloc, plot, name, point, out)?;
    }
    Ok(())
}

// Appends the row of a point.
#[tactic(auto, unfolding(crate::specs::Table::row_text))]
fn push_row(
    alloc: Global,
    plot: Plot,
    name: &[u8],
    point: &PlotPoint,
    out: &mut Vec<u8>,
) -> Result<(), AllocError>
    ensures { OnOk result (out.new.items ≡ out.old.items ++ row_text plot name.now point.now) }
{
    out.extend_from_slice(name)?;
    out.extend_from_slice(b",")?;
    push_point(alloc, plot, point, b",", out)?;
    out.extend_from_slice(b"\n")
}
