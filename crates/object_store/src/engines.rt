// The engine of an instrument.
ghost use Rattle.std.specs.Prelude.{◌≡◌, ℕ, Option, Some, slice_index_or};
ghost use Rattle.flow_terms.specs.declared.flows.FlowTerms.{FlowTerms};
ghost use Rattle.desk_terms.specs.declared.terms.Terms.TheVariants.{Flows};
ghost use Rattle.desk_model.specs.Changeable.{changeable};
ghost use Rattle.desk_model.specs.Market.{terms_in};
ghost use Rattle.desk_model.specs.declared.slot.Slot.TheVariants.{Free, Live};
ghost use Rattle.object_store.specs.Slots.{engine_in};

use crate::objects::Objects;
use desk_model::Slot;
use desk_names::ObjId;
use desk_terms::Terms;

/// Returns the engine of an instrument. `None` if it has none, or the object is no instrument.
pub fn engine_of(objects: &Objects, instrument: ObjId) -> Option<ObjId>
    ensures { result ≡ engine_in (changeable (terms_in (slice_index_or objects.now instrument Free))) }
{
    match objects.terms(instrument) {
        None => None,
        Some(terms) => engine_held(terms),
    }
}

// Returns the engine in terms.
fn engine_held(terms: &Terms) -> Option<ObjId>
    ensures { result ≡ engine_in (changeable (Some terms.now)) }
{
    match terms {
        Terms::Flows(_, engine) => *engine,
        Terms::Quote(_)
        | Terms::Derived { .. }
        | Terms::Handle { .. }
        | Terms::Curve(_)
        | Terms::Implied { .. }
        | Terms::Index(..)
        | Terms::Engine { .. }
        | Terms::Stock { .. }
        | Terms::Composite(_) => None,
    }
}

/// Sets the engine of the object in a slot. Takes no memory.
pub fn set_in(slot: &mut Slot, engine: Option<ObjId>)
    ensures { (flows : FlowTerms) (held : Option ℕ) → terms_in slot.old ≡ Some (Flows flows held) → slot.new ≡ Live (Flows flows engine) }
{
    match slot {
        Slot::Live(terms) => set_held(terms, engine),
        Slot::Free | Slot::Today | Slot::Watcher => {}
    }
}

// Sets the engine in terms.
fn set_held(terms: &mut Terms, engine: Option<ObjId>)
    ensures { (flows : FlowTerms) (held : Option ℕ) → terms.old ≡ Flows flows held → terms.new ≡ Flows flows engine }
{
    match terms {
        Terms::Flows(_, held) => *held = engine,
        Terms::Quote(_)
        | Terms::Derived { .. }
        | Terms::Handle { .. }
        | Terms::Curve(_)
        | Terms::Implied { .. }
        | Terms::Index(..)
        | Terms::Engine { .. }
        | Terms::Stock { .. }
        | Terms::Composite(_) => {}
    }
}
