// The workings of the price of a bond, swap or forward rate agreement.
ghost use Rattle.std.specs.Prelude.{◌≡◌, ◌++◌, Some, OnOk, option_copied};
ghost use Rattle.desk_terms.specs.declared.kind.Kind.TheVariants.{Flows};
ghost use Rattle.desk_model.specs.Market.{kind_at, terms_at};
ghost use Rattle.desk_model.specs.State.{kept_at};
ghost use Rattle.desk_model.specs.Uses.{uses};
ghost use Rattle.session_why.specs.Curves.{curve_in, curves_in};
ghost use Rattle.session_why.specs.Lasts.{CanWork, workings_in};
ghost use Rattle.session_why.specs.Over.{products_over, IsFit, IsOver};
ghost use Rattle.why_model.specs.Answer.{named, sum_text};

use crate::curves::{Curves, curves_of, index_of};
use crate::products::{Over, products_of};
use crate::sums::push_sum;
use curve_points::CurveValue;
use desk_names::ObjId;
use desk_terms::{Terms, Value};
use lazy_objects::Desk;
use session_core::Session;
use std::alloc::{AllocError, Global};

// Appends each flow that is still to be paid, and their sum. Appends nothing if all flows are paid.
pub(crate) fn push_flows(
    alloc: Global,
    session: &mut Session,
    object: ObjId,
    out: &mut Vec<u8>,
) -> Result<(), AllocError>
    requires kind { kind_at session.old.state.market object ≡ Some Flows }
    requires can { CanWork session.old.state object }
    ensures text { OnOk result (out.new.items ≡ out.old.items ++ workings_in session.old object
        (terms_at session.old.state.market object) (kept_at session.old.state object).last) }
    ensures same { session.new ≡ session.old }
{
    match curves_of(&mut session.desk, object)? {
        None => Ok(()),
        Some(curves) => push_over(alloc, session, object, curves, out),
    }
}

// Appends the flows of an object with these curves.
fn push_over(
    alloc: Global,
    session: &Session,
    object: ObjId,
    curves: Curves,
    out: &mut Vec<u8>,
) -> Result<(), AllocError>
    requires kind { kind_at session.now.state.market object ≡ Some Flows }
    requires can { CanWork session.now.state object }
    requires curves { curves_in (uses session.now.state.market object) ≡ Some curves }
    ensures { OnOk result (out.new.items ≡ out.old.items ++ workings_in session.now object
        (terms_at session.now.state.market object) (kept_at session.now.state object).last) }
{
    session.shape();
    match over(session.desk(), object, curves) {
        None => Ok(()),
        Some(over) => push_products(alloc, session, &over, out),
    }
}

// Appends the flows with the values of these curves.
fn push_products(
    alloc: Global,
    session: &Session,
    over: &Over<'_>,
    out: &mut Vec<u8>,
) -> Result<(), AllocError>
    requires { IsFit over.now }
    ensures { OnOk result (out.new.items ≡ out.old.items ++ sum_text (named session.now over.now.object) (products_over over.now)) }
{
    match products_of(alloc, over)? {
        None => Ok(()),
        Some(products) => push_sum(alloc, session, over.object, products.as_slice(), out),
    }
}

// Returns the inputs of the price of flows. None if one of these objects has no curve.
fn over<'a>(desk: &'a Desk, object: ObjId, curves: Curves) -> Option<Over<'a>>
    requires { kind_at desk.now.market object ≡ Some Flows }
    ensures { IsOver desk.now object curves result }
{
    let Some(Terms::Flows(terms, _)) = desk.terms(object) else {
        return None;
    };
    let discount = curve_of(desk, curves.discount)?;
    let forecast = match curves.forecast {
        None => None,
        Some(curve) => Some(curve_of(desk, curve)?),
    };
    Some(Over {
        object,
        terms,
        today: desk.today(),
        index: index_of(desk, terms.index),
        discount,
        forecast,
    })
}

// Returns the last value of a curve.
fn curve_of(desk: &Desk, object: ObjId) -> Option<&CurveValue>
    ensures { option_copied result ≡ curve_in (kept_at desk.now object).last }
{
    match desk.last(object) {
        Some(Value::Curve(curve)) => Some(curve),
        Some(Value::Money(_)) | None => None,
    }
}
