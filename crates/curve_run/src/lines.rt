// What is shown of curves.
ghost use Rattle.std.specs.Prelude.{◌≡◌, ◌⊎◌, map, IfOk};
ghost use Rattle.std.specs.String.{string_bytes};
ghost use Rattle.desk_model.specs.Sound.{IsSound};
ghost use Rattle.desk_model.specs.Unheld.{HoldsNothing};
ghost use Rattle.bump_model.specs.Asking.{Calls};
ghost use Rattle.market_desk.specs.Standing.{standing};
ghost use Rattle.curve_run.specs.Lines.{drawn_text, plotted_text, priced_text, curve_text, curve_calls, AreNamed};
ghost use Rattle.curve_run.specs.Named.{AreCurves, ItemsAre};
ghost use Rattle.curve_run.specs.Pricing.{curves_asking};

use crate::finding::curves_named;
use crate::plotting::plot_all;
use crate::pricing::price_all;
use curve_drawing::{Plot, PlotLine, picture, table};
use curve_points::CurveValue;
use day_number::Day;
use desk_names::ObjId;
use desk_terms::Bench;
use lazy_objects::Desk;
use price_report::Namer;
use std::alloc::{AllocError, Global};
use std::marker::Model;

// What is wanted: a table or a picture, what is drawn, and the day of the market.
#[derive(Clone, Copy)]
pub(crate) struct Sheet {
    pub(crate) as_table: bool,
    pub(crate) plot: Plot,
    pub(crate) today: Day,
}

impl Model for Sheet {
    ghost use Rattle.curve_run.specs.Lines as lines;

    ghost Value = { lines.Sheet };

    ghost view = { λ s. record { as_table = s.as_table; plot = s.plot; today = s.today } };

    ghost inverse = { λ s. record { as_table = s.as_table; plot = s.plot; today = s.today } };
}

// A picture or a table, or the lines of what stands against it.
pub(crate) type Shown = Result<Vec<u8>, Vec<u8>>;

// The picture or the table of the curves that names stand for, or the lines of what stands against it.
pub(crate) fn curve_lines<B: Bench>(
    alloc: Global,
    desk: &mut Desk,
    sheet: Sheet,
    texts: &[String],
    namer: &Namer<'_>,
    bench: &mut B,
) -> Result<Shown, AllocError>
    requires sound { IsSound (B.calc bench.old) desk.old }
    requires unheld { HoldsNothing desk.old }
    ensures same { B.calc bench.new ≡ B.calc bench.old }
    ensures shown { IfOk result (λ shown. ItemsAre shown
        (curve_text (B.calc bench.old) (standing namer.now.names.now namer.now.of_object.now desk.old) sheet (map string_bytes texts.now))) }
    ensures calls { Calls (curve_calls (B.calc bench.old) (standing namer.now.names.now namer.now.of_object.now desk.old) (map string_bytes texts.now))
        result (B.count bench.old) (B.count bench.new) (B.log bench.old) (B.log bench.new) }
    ensures alone { AreNamed (standing namer.now.names.now namer.now.of_object.now desk.old) (map string_bytes texts.now) ⊎ (bench.new ≡ bench.old) }
{
    let named = curves_named(alloc, desk, namer.names, texts)?;
    match named {
        Ok(objects) => priced_lines(alloc, desk, sheet, objects.as_slice(), namer, bench),
        Err(lines) => Ok(Err(lines)),
    }
}

// The picture or the table of curves, or the lines of those that are refused.
fn priced_lines<B: Bench>(
    alloc: Global,
    desk: &mut Desk,
    sheet: Sheet,
    objects: &[ObjId],
    namer: &Namer<'_>,
    bench: &mut B,
) -> Result<Shown, AllocError>
    requires curves { AreCurves desk.old.market objects.now }
    requires sound { IsSound (B.calc bench.old) desk.old }
    requires unheld { HoldsNothing desk.old }
    ensures same { B.calc bench.new ≡ B.calc bench.old }
    ensures shown { IfOk result (λ shown. ItemsAre shown
        (priced_text (B.calc bench.old) (standing namer.now.names.now namer.now.of_object.now desk.old) sheet objects.now)) }
    ensures calls { Calls (curves_asking (B.calc bench.old) objects.now desk.old).calls
        result (B.count bench.old) (B.count bench.new) (B.log bench.old) (B.log bench.new) }
{
    let priced = price_all(alloc, desk, objects, namer, bench)?;
    if !priced.lines.is_empty() {
        return Ok(Err(priced.lines));
    }
    plotted(alloc, desk, sheet, priced.curves.as_slice(), namer)
}

// The picture or the table of curves, or the lines of those of which a rate is refused.
fn plotted(
    alloc: Global,
    desk: &mut Desk,
    sheet: Sheet,
    curves: &[CurveValue],
    namer: &Namer<'_>,
) -> Result<Shown, AllocError>
    ensures { IfOk result (λ shown. ItemsAre shown
        (plotted_text namer.now.names.now namer.now.of_object.now sheet desk.old.market curves.now)) }
{
    let plotted = plot_all(alloc, desk, sheet.plot, curves, namer)?;
    if !plotted.refused.is_empty() {
        return Ok(Err(plotted.refused));
    }
    Ok(Ok(drawn(alloc, sheet, plotted.lines.as_slice(), namer)?))
}

// The picture or the table of lines.
fn drawn(
    alloc: Global,
    sheet: Sheet,
    lines: &[PlotLine],
    namer: &Namer<'_>,
) -> Result<Vec<u8>, AllocError>
    ensures { IfOk result (λ text. text.items
        ≡ drawn_text namer.now.names.now namer.now.of_object.now sheet lines.now) }
{
    let mut text = Vec::new(alloc);
    if sheet.as_table {
        table(alloc, sheet.plot, lines, namer, &mut text)?;
    } else {
        picture(alloc, sheet.plot, sheet.today, lines, namer, &mut text)?;
    }
    Ok(text)
}
