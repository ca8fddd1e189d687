// The discount factor of a curve at a day, or the cause of its refusal.
ghost use Rattle.std.specs.Prelude.{◌≡◌};
ghost use Rattle.curve_points.specs.Point.{discount_at};
ghost use Rattle.desk_terms.specs.Point.{point_cause, found_at};

use crate::Cause;
use curve_points::{CurveValue, PointFault, discount};
use day_number::Day;
use desk_names::ObjId;
use fixed_amount::Discount;

/// The discount factor that an object's curve has at a day. A day outside the curve is refused in that object's name,
/// whoever owns the curve (QuantLib's `YieldTermStructure::discount`).
pub fn discount_of(object: ObjId, curve: &CurveValue, day: Day) -> Result<Discount, Cause>
    ensures { result ≡ found_at object day (discount_at curve.now day) }
{
    match discount(curve, day) {
        Ok(factor) => Ok(factor),
        Err(fault) => Err(point_cause(object, day, fault)),
    }
}

/// Why an object's curve has no discount factor at a day.
pub fn point_cause(object: ObjId, day: Day, fault: PointFault) -> Cause
    ensures { result ≡ point_cause object day fault }
{
    match fault {
        PointFault::Before => Cause::Before(object, day),
        PointFault::Past => Cause::Past(object, day),
    }
}
