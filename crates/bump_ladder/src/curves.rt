// What a curve is worth now, and the curve that an object gives.
ghost use Rattle.std.specs.Prelude.{◌≡◌, ◌<◌, ◌≤◌, length, true, IfOk, option_copied};
ghost use Rattle.desk_terms.specs.Asked.{Shows};
ghost use Rattle.desk_terms.specs.Reading.{Outcome};
ghost use Rattle.desk_model.specs.Links.{is_lazy_at};
ghost use Rattle.desk_model.specs.Sound.{IsSound};
ghost use Rattle.desk_model.specs.Unheld.{HoldsNothing};
ghost use Rattle.bump_model.specs.Asking.{Asks, ask_of};
ghost use Rattle.bump_ladder.specs.Curves.{curve_of, curve_at, curve_given, given_asking};

use curve_points::{CurveValue, copy_curve};
use desk_model::Entry;
use desk_names::ObjId;
use desk_terms::{Asked, Bench, Cause, Value};
use lazy_objects::Desk;
use std::alloc::{AllocError, Global};

/// The curve that an object gives where another names it, as an engine gives its own, or why it gives none.
pub fn curve_given<B: Bench>(
    alloc: Global,
    desk: &mut Desk,
    object: ObjId,
    bench: &mut B,
) -> Result<Result<CurveValue, Cause>, AllocError>
    requires sound { IsSound (B.calc bench.old) desk.old }
    requires unheld { HoldsNothing desk.old }
    ensures same { B.calc bench.new ≡ B.calc bench.old }
    ensures value { IfOk result (λ value. value ≡ curve_given (B.calc bench.old) desk.old.market object) }
    ensures asks { Asks (given_asking (B.calc bench.old) object desk.old) result desk.new
        (B.count bench.old) (B.count bench.new) (B.log bench.old) (B.log bench.new) }
    ensures market { desk.new.market ≡ desk.old.market }
    ensures sound { IsSound (B.calc bench.old) desk.new }
    ensures unheld { HoldsNothing desk.new }
{
    if object.0 >= desk.numbers() {
        return Ok(Err(Cause::Unset(object)));
    }
    match desk.given(object)? {
        Entry::Needs(curve) => curve_at(alloc, desk, curve, bench),
        Entry::Gives(_) => Ok(Err(Cause::Unpriced(object))),
        Entry::Refuses(cause) => Ok(Err(cause)),
    }
}

/// What a curve is worth, or why it is worth nothing. The bench is called for what an ask of it needs, and for no more.
pub fn curve_at<B: Bench>(
    alloc: Global,
    desk: &mut Desk,
    object: ObjId,
    bench: &mut B,
) -> Result<Result<CurveValue, Cause>, AllocError>
    requires lazy { is_lazy_at desk.old.market object ≡ true }
    requires sound { IsSound (B.calc bench.old) desk.old }
    requires unheld { HoldsNothing desk.old }
    ensures same { B.calc bench.new ≡ B.calc bench.old }
    ensures value { IfOk result (λ value. value ≡ curve_at (B.calc bench.old) desk.old.market object) }
    ensures asks { Asks (ask_of (B.calc bench.old) object desk.old) result desk.new
        (B.count bench.old) (B.count bench.new) (B.log bench.old) (B.log bench.new) }
    ensures market { desk.new.market ≡ desk.old.market }
    ensures sound { IsSound (B.calc bench.old) desk.new }
    ensures unheld { HoldsNothing desk.new }
{
    let asked = desk.ask(object, bench)?;
    curve_of(alloc, object, &asked, desk.last(object))
}

// The curve that an answer shows.
fn curve_of(
    alloc: Global,
    object: ObjId,
    asked: &Asked,
    value: Option<&Value>,
) -> Result<Result<CurveValue, Cause>, AllocError>
    requires given { (outcome : Outcome) × Shows asked.now.cause (option_copied value) outcome }
    ensures { (outcome : Outcome) → Shows asked.now.cause (option_copied value.entry) outcome
        → IfOk result (λ shown. shown ≡ curve_of object outcome) }
{
    match (&asked.cause, value) {
        (Some(cause), _) => Ok(Err(*cause)),
        (None, Some(Value::Curve(curve))) => Ok(Ok(copy_curve(alloc, curve)?)),
        (None, Some(Value::Money(_))) => Ok(Err(Cause::Unpriced(object))),
        (None, None) => unreachable!(),
    }
}
