// The curves that engines and indexes give.
ghost use Rattle.std.specs.Prelude.{◌≡◌, ◌≤◌, ◌^◌, ◌++◌, length, IfOk, OnOk, option_copied};
ghost use Rattle.desk_model.specs.Sound.{IsSound};
ghost use Rattle.desk_model.specs.Unheld.{HoldsNothing};
ghost use Rattle.bump_model.specs.Asking.{Asks};
ghost use Rattle.tool_risk.specs.Given.{names_curve, is_naming, naming_in, where_given, curves_given, curves_asking, curve_by};

use crate::curves::push_where;
use bump_ladder::curve_given;
use curve_points::CurveValue;
use desk_names::ObjId;
use desk_terms::{Bench, Cause, Kind, Wanted};
use item_lists::Items;
use lazy_objects::Desk;
use std::alloc::{AllocError, Global};

// A curve, and the engine or the index that gives it.
#[derive(Drop)]
pub(crate) struct GivenCurve {
    pub(crate) by: ObjId,
    pub(crate) curve: CurveValue,
}

// The engines and indexes beneath an object, in order of creation.
pub(crate) fn naming_beneath(
    alloc: Global,
    desk: &mut Desk,
    object: ObjId,
) -> Result<Items<ObjId>, AllocError>
    ensures found { IfOk result (λ found. found ≡ naming_in desk.old.market object) }
    ensures same { desk.new ≡ desk.old }
{
    let mut found = Items::new(alloc);
    for number in 0..desk.numbers() {
        let name = ObjId(number);
        push_where(&mut found, name, is_naming(desk, object, name))?;
    }
    Ok(found)
}

// Whether an object is an engine or an index beneath another.
fn is_naming(desk: &mut Desk, object: ObjId, name: ObjId) -> bool
    ensures answer { result ≡ is_naming desk.old.market object name }
    ensures same { desk.new ≡ desk.old }
{
    names_curve(desk.kind(name)) && desk.reaches(object, name)
}

fn names_curve(kind: Option<Kind>) -> bool
    ensures { result ≡ names_curve kind }
{
    match kind {
        None => false,
        Some(kind) => kind.serves(Wanted::Engine) || kind.serves(Wanted::Index),
    }
}

// The curves that these give, each that has one.
pub(crate) fn curves_given<B: Bench>(
    alloc: Global,
    desk: &mut Desk,
    names: &[ObjId],
    bench: &mut B,
) -> Result<Vec<GivenCurve>, AllocError>
    requires sound { IsSound (B.calc bench.old) desk.old }
    requires unheld { HoldsNothing desk.old }
    ensures same { B.calc bench.new ≡ B.calc bench.old }
    ensures curves { IfOk result (λ curves. curves.items ≡ curves_given (B.calc bench.old) desk.old.market names.now) }
    ensures asks { Asks (curves_asking (B.calc bench.old) names.now desk.old) result desk.new
        (B.count bench.old) (B.count bench.new) (B.log bench.old) (B.log bench.new) }
    ensures market { desk.new.market ≡ desk.old.market }
    ensures sound { IsSound (B.calc bench.old) desk.new }
    ensures unheld { HoldsNothing desk.new }
{
    let mut curves = Vec::new(alloc);
    for name in names {
        let given = curve_given(alloc, desk, *name, bench)?;
        push_given(*name, given, &mut curves)?;
    }
    Ok(curves)
}

// Appends the curve that an object gives, where it gives one.
fn push_given(
    by: ObjId,
    given: Result<CurveValue, Cause>,
    curves: &mut Vec<GivenCurve>,
) -> Result<(), AllocError>
    ensures { OnOk result (curves.new.items ≡ curves.old.items ++ where_given by given) }
{
    match given {
        Err(_) => {}
        Ok(curve) => curves.push(GivenCurve { by, curve })?,
    }
    Ok(())
}

// Of these curves that which an engine or an index gives.
pub(crate) fn curve_by(curves: &[GivenCurve], by: ObjId) -> Option<&CurveValue>
    ensures { option_copied result ≡ curve_by curves.now by }
{
    for given in curves {
        if given.by == by {
            return Some(&given.curve);
        }
    }
    None
}
