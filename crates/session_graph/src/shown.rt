// What is shown of the value of an object.
ghost use Rattle.std.specs.Prelude.{◌≡◌, option_copied, Some};
ghost use Rattle.desk_terms.specs.declared.kind.Kind.TheVariants.{Today, Quote};
ghost use Rattle.desk_model.specs.Market.{kind_at};
ghost use Rattle.session_model.specs.Place.{is_kind};
ghost use Rattle.session_graph.specs.Node.{last_point, point_or_origin, rate_shown, value_shown, last_shown, shown_at, shown_for};

use curve_points::{CurveNode, CurveValue, ONE};
use desk_names::ObjId;
use desk_terms::{Kind, Value};
use fixed_amount::{Discount, Rate};
use graph_dot::Shown;
use lazy_objects::Desk;

// What is shown of an object of this kind: the date of `today`, the rate of a quote, the last value of any other.
pub(crate) fn shown_of(desk: &Desk, object: ObjId, kind: Kind) -> Shown
    requires { kind_at desk.now.market object ≡ Some kind }
    ensures { result ≡ shown_for desk.now object kind }
{
    if is_today(kind) {
        Shown::Date(desk.today())
    } else {
        value_of(desk, object, kind)
    }
}

// The rate of a quote, the last value of any other.
fn value_of(desk: &Desk, object: ObjId, kind: Kind) -> Shown
    requires { kind_at desk.now.market object ≡ Some kind }
    ensures { result ≡ shown_at desk.now object }
{
    if is_quote(kind) {
        rate_shown(desk.quote(object))
    } else {
        last_shown(desk.last(object))
    }
}

fn is_today(kind: Kind) -> bool
    ensures { result ≡ is_kind Today kind }
{
    matches!(kind, Kind::Today)
}

fn is_quote(kind: Kind) -> bool
    ensures { result ≡ is_kind Quote kind }
{
    matches!(kind, Kind::Quote)
}

// The rate of a quote.
fn rate_shown(rate: Option<Rate>) -> Shown
    ensures { result ≡ rate_shown rate }
{
    match rate {
        None => Shown::Unset,
        Some(rate) => Shown::Rate(rate),
    }
}

// The last value of an object.
fn last_shown(value: Option<&Value>) -> Shown
    ensures { result ≡ last_shown (option_copied value.entry) }
{
    match value {
        None => Shown::Nothing,
        Some(value) => value_shown(value),
    }
}

fn value_shown(value: &Value) -> Shown
    ensures { result ≡ value_shown value.now }
{
    match value {
        Value::Money(amount) => Shown::Money(*amount),
        Value::Curve(curve) => Shown::Point(last_point(curve)),
    }
}

// The last point of a curve: where it begins, if it has no node.
fn last_point(curve: &CurveValue) -> CurveNode
    ensures { result ≡ last_point curve.now }
{
    match curve.nodes().last() {
        None => CurveNode {
            day: curve.reference(),
            factor: Discount(ONE),
        },
        Some(node) => *node,
    }
}
