// The next business day of an instrument.
ghost use Rattle.std.specs.Prelude.{◌≡◌, IfOk, option_copied};
ghost use Rattle.tool_risk.specs.Curves.{curves_in};
ghost use Rattle.tool_risk.specs.Tomorrow.{discounts, calendar_in, calendar_of, next_day, tomorrow_of};

use crate::curves::curves_beneath;
use day_number::{Convention, Day, Unit};
use day_shift::advance;
use desk_names::ObjId;
use desk_terms::Terms;
use holiday_calendars::{Base, Calendar};
use lazy_objects::Desk;
use std::alloc::{AllocError, Global};

// The next business day of the calendar of the first curve beneath the instrument's engine, or beneath itself where it has
// none; every day is a business day where there is no curve. None behind 2199.
pub(crate) fn tomorrow(
    alloc: Global,
    desk: &mut Desk,
    object: ObjId,
) -> Result<Option<Day>, AllocError>
    ensures day { IfOk result (λ day. day ≡ tomorrow_of desk.old.market object) }
    ensures same { desk.new ≡ desk.old }
{
    let top = discounts(object, desk.terms(object));
    let curves = curves_beneath(alloc, desk, top)?;
    Ok(next_by(desk, curves.items()))
}

// Beneath which object the curve lies that discounts an instrument: its engine, or itself where it has none.
fn discounts(object: ObjId, terms: Option<&Terms>) -> ObjId
    ensures { result ≡ discounts object (option_copied terms.entry) }
{
    match terms {
        Some(Terms::Flows(_, Some(engine))) => *engine,
        Some(Terms::Flows(_, None)) => object,
        None
        | Some(
            Terms::Quote(_)
            | Terms::Derived { .. }
            | Terms::Handle { .. }
            | Terms::Curve(_)
            | Terms::Implied { .. }
            | Terms::Index(..)
            | Terms::Engine { .. }
            | Terms::Stock { .. }
            | Terms::Composite(_),
        ) => object,
    }
}

// The next business day of the first of these curves.
fn next_by(desk: &Desk, curves: &[ObjId]) -> Option<Day>
    ensures { result ≡ next_day (calendar_of desk.now.market curves.now) desk.now.market.today }
{
    match curves {
        [] => next_day(&Calendar::one(Base::Null), desk.today()),
        [curve, ..] => next_in(desk.terms(*curve), desk.today()),
    }
}

// The next business day of a curve's calendar.
fn next_in(terms: Option<&Terms>, today: Day) -> Option<Day>
    ensures { result ≡ next_day (calendar_in (option_copied terms.entry)) today }
{
    match terms {
        Some(Terms::Curve(curve)) => next_day(&curve.cal, today),
        None
        | Some(
            Terms::Quote(_)
            | Terms::Derived { .. }
            | Terms::Handle { .. }
            | Terms::Implied { .. }
            | Terms::Index(..)
            | Terms::Engine { .. }
            | Terms::Stock { .. }
            | Terms::Composite(_)
            | Terms::Flows(..),
        ) => next_day(&Calendar::one(Base::Null), today),
    }
}

fn next_day(cal: &Calendar, today: Day) -> Option<Day>
    ensures { result ≡ next_day cal.now today }
{
    advance(cal, today, 1, Unit::Days, Convention::Following, false).ok()
}
