// What is drawn of curves that are priced.
ghost use Rattle.std.specs.Prelude.{◌≡◌, ◌++◌, IfOk, OnOk};
ghost use Rattle.curve_run.specs.Plotting.{line_at, line_in, plotted_lines, unplotted};
ghost use Rattle.curve_run.specs.Pricing.{refused_in};

use crate::pricing::refused_line;
use crate::quoted::line_at;
use curve_drawing::{Plot, PlotLine};
use curve_points::CurveValue;
use desk_names::ObjId;
use desk_terms::Cause;
use lazy_objects::Desk;
use price_report::Namer;
use std::alloc::{AllocError, Global};

// The lines of curves, and what is written of those that have none.
#[derive(Drop)]
pub(crate) struct Plotted {
    pub(crate) lines: Vec<PlotLine>,
    pub(crate) refused: Vec<u8>,
}

// What is drawn of each curve, in order.
pub(crate) fn plot_all(
    alloc: Global,
    desk: &mut Desk,
    plot: Plot,
    curves: &[CurveValue],
    namer: &Namer<'_>,
) -> Result<Plotted, AllocError>
    ensures lines { IfOk result (λ plotted. plotted.lines.items ≡ plotted_lines plot desk.old.market curves.now) }
    ensures refused { IfOk result (λ plotted. plotted.refused.items
        ≡ unplotted namer.now.names.now namer.now.of_object.now plot desk.old.market curves.now) }
{
    let lines = Vec::new(alloc);
    let refused = Vec::new(alloc);
    let mut plotted = Plotted { lines, refused };
    for curve in curves {
        let line = line_at(alloc, desk, plot, curve)?;
        keep(alloc, curve.owner(), line, namer, &mut plotted)?;
    }
    Ok(plotted)
}

// Appends the line of a curve, or what is written where it has none.
fn keep(
    alloc: Global,
    owner: ObjId,
    line: Result<PlotLine, Cause>,
    namer: &Namer<'_>,
    plotted: &mut Plotted,
) -> Result<(), AllocError>
    ensures lines { OnOk result (plotted.new.lines.items ≡ plotted.old.lines.items ++ line_in line) }
    ensures refused { OnOk result (plotted.new.refused.items
        ≡ plotted.old.refused.items ++ refused_in namer.now.names.now namer.now.of_object.now owner line) }
{
    match line {
        Ok(line) => {
            plotted.lines.push(line)?;
            Ok(())
        }
        Err(cause) => refused_line(alloc, owner, &cause, namer, &mut plotted.refused),
    }
}
