// The curves that the price of a bond, swap or forward rate agreement reads.
ghost use Rattle.std.specs.Prelude.{◌≡◌, Some, IfOk};
ghost use Rattle.desk_terms.specs.declared.kind.Kind.TheVariants.{Flows};
ghost use Rattle.desk_terms.specs.Reading.{index_reading};
ghost use Rattle.desk_model.specs.Market.{kind_at, terms_at};
ghost use Rattle.desk_model.specs.Uses.{index_at, uses};
ghost use Rattle.session_why.specs.Lasts.{CanWork};
ghost use Rattle.session_why.specs.Curves.{curves_in, forecast_in, naming_in, unnamed};

use desk_model::Entry;
use desk_names::ObjId;
use desk_terms::Terms;
use flow_terms::{FlowTerms, IndexUse, expired, needs_forecast};
use lazy_objects::Desk;
use std::alloc::AllocError;

// The curves of a price: that of its engine, and that of its index if a rate has to be forecast.
#[derive(Clone, Copy)]
pub(crate) struct Curves {
    pub(crate) discount: ObjId,
    pub(crate) forecast: Option<ObjId>,
}

// The objects that name these curves.
#[derive(Clone, Copy)]
struct Naming {
    engine: Option<ObjId>,
    index: Option<ObjId>,
}

// Returns the curves of the price of an object: none if all its flows are paid, or it uses no curve.
pub(crate) fn curves_of(desk: &mut Desk, object: ObjId) -> Result<Option<Curves>, AllocError>
    requires kind { kind_at desk.old.market object ≡ Some Flows }
    requires can { CanWork desk.old object }
    ensures curves { IfOk result (λ curves. curves ≡ curves_in (uses desk.old.market object)) }
    ensures same { desk.new ≡ desk.old }
{
    desk.shape();
    let naming = naming_of(desk, object);
    let Some(engine) = naming.engine else {
        return Ok(None);
    };
    let Entry::Needs(discount) = desk.given(engine)? else {
        return Ok(None);
    };
    let Some(index) = naming.index else {
        return Ok(Some(Curves {
            discount,
            forecast: None,
        }));
    };
    match desk.given(index)? {
        Entry::Needs(forecast) => Ok(Some(Curves {
            discount,
            forecast: Some(forecast),
        })),
        Entry::Gives(_) => Ok(None),
        Entry::Refuses(_cause) => Ok(None),
    }
}

// Returns the engine of an object, and its index if a rate has to be forecast. Neither if all its flows are paid.
fn naming_of(desk: &Desk, object: ObjId) -> Naming
    requires { kind_at desk.now.market object ≡ Some Flows }
    ensures { result ≡ naming_in desk.now.market (terms_at desk.now.market object) }
{
    match desk.terms(object) {
        Some(Terms::Flows(terms, engine)) => {
            if expired(terms, desk.today()) {
                unnamed()
            } else {
                Naming {
                    engine: *engine,
                    index: forecast_by(desk, terms),
                }
            }
        }
        _ => unnamed(),
    }
}

fn unnamed() -> Naming
    ensures { result ≡ unnamed }
{
    Naming {
        engine: None,
        index: None,
    }
}

// Returns the index of an object with these terms, if a rate has to be forecast.
fn forecast_by(desk: &Desk, terms: &FlowTerms) -> Option<ObjId>
    ensures { result ≡ forecast_in desk.now.market terms.now }
{
    match index_of(desk, terms.index) {
        Some(index) => {
            if needs_forecast(terms, index.fixings, desk.today()) {
                terms.index
            } else {
                None
            }
        }
        None => None,
    }
}

// Returns an index as a price uses it.
pub(crate) fn index_of(desk: &Desk, object: Option<ObjId>) -> Option<IndexUse<'_>>
    ensures { index_reading result ≡ index_at desk.now.market object }
{
    match object {
        None => None,
        Some(object) => index_at(desk, object),
    }
}

fn index_at(desk: &Desk, object: ObjId) -> Option<IndexUse<'_>>
    ensures { index_reading result ≡ index_at desk.now.market (Some object) }
{
    match desk.terms(object) {
        Some(Terms::Index(terms, fixings)) => Some(IndexUse {
            object,
            terms,
            fixings,
        }),
        _ => None,
    }
}
