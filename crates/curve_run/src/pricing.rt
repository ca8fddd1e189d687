// The prices of curves.
ghost use Rattle.std.specs.Prelude.{◌≡◌, ◌++◌, ℕ, IfOk, OnOk};
ghost use Rattle.desk_model.specs.Sound.{IsSound};
ghost use Rattle.desk_model.specs.Unheld.{HoldsNothing};
ghost use Rattle.bump_model.specs.Asking.{Asks};
ghost use Rattle.curve_run.specs.Named.{AreCurves};
ghost use Rattle.curve_run.specs.Pricing.{curve_in, refused_in, curves_of, refused_line, refused_lines, curves_asking};

use bump_ladder::curve_at;
use curve_points::CurveValue;
use desk_names::ObjId;
use desk_terms::{Bench, Cause};
use lazy_objects::Desk;
use price_report::{Namer, cause_text};
use std::alloc::{AllocError, Global};

// The values of curves, and the lines of those that have none.
#[derive(Drop)]
pub(crate) struct Priced {
    pub(crate) curves: Vec<CurveValue>,
    pub(crate) lines: Vec<u8>,
}

// Asks for each curve, in order.
pub(crate) fn price_all<B: Bench>(
    alloc: Global,
    desk: &mut Desk,
    objects: &[ObjId],
    namer: &Namer<'_>,
    bench: &mut B,
) -> Result<Priced, AllocError>
    requires curves { AreCurves desk.old.market objects.now }
    requires sound { IsSound (B.calc bench.old) desk.old }
    requires unheld { HoldsNothing desk.old }
    ensures same { B.calc bench.new ≡ B.calc bench.old }
    ensures curves { IfOk result (λ priced. priced.curves.items ≡ curves_of (B.calc bench.old) desk.old.market objects.now) }
    ensures lines { IfOk result (λ priced. priced.lines.items
        ≡ refused_lines (B.calc bench.old) desk.old.market namer.now.names.now namer.now.of_object.now objects.now) }
    ensures asks { Asks (curves_asking (B.calc bench.old) objects.now desk.old) result desk.new
        (B.count bench.old) (B.count bench.new) (B.log bench.old) (B.log bench.new) }
    ensures market { IfOk result (λ _. desk.new.market ≡ desk.old.market) }
{
    let curves = Vec::new(alloc);
    let lines = Vec::new(alloc);
    let mut priced = Priced { curves, lines };
    for object in objects {
        let value = curve_at(alloc, desk, *object, bench)?;
        keep(alloc, *object, value, namer, &mut priced)?;
    }
    Ok(priced)
}

// Appends the value of a curve, or the line that says why it has none.
fn keep(
    alloc: Global,
    object: ObjId,
    value: Result<CurveValue, Cause>,
    namer: &Namer<'_>,
    priced: &mut Priced,
) -> Result<(), AllocError>
    ensures curves { OnOk result (priced.new.curves.items ≡ priced.old.curves.items ++ curve_in value) }
    ensures lines { OnOk result (priced.new.lines.items
        ≡ priced.old.lines.items ++ refused_in namer.now.names.now namer.now.of_object.now object value) }
{
    match value {
        Ok(curve) => {
            priced.curves.push(curve)?;
            Ok(())
        }
        Err(cause) => refused_line(alloc, object, &cause, namer, &mut priced.lines),
    }
}

// Appends the line of a curve that is refused.
#[tactic(auto, unfolding(crate::specs::Pricing::refused_line))]
pub(crate) fn refused_line(
    alloc: Global,
    object: ObjId,
    cause: &Cause,
    namer: &Namer<'_>,
    lines: &mut Vec<u8>,
) -> Result<(), AllocError>
    ensures { OnOk result (lines.new.items
        ≡ lines.old.items ++ refused_line namer.now.names.now namer.now.of_object.now object cause.now) }
{
    lines.extend_from_slice(namer.object(object))?;
    lines.extend_from_slice(b" refused ")?;
    cause_text(alloc, cause, namer, lines)?;
    lines.extend_from_slice(b"\n")
}
