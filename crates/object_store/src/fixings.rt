// An index and its fixings.
ghost use Rattle.std.specs.Prelude.{◌≡◌, ◌↔◌, ◌<◌, ℤ, true, Some, Err, OnOk, OnErr, length, slice_index_or, slice_set};
ghost use Rattle.flow_terms.specs.declared.indexes.IndexTerms.{IndexTerms};
ghost use Rattle.flow_terms.specs.declared.fixings.FixFault.TheVariants.{Exists};
ghost use Rattle.flow_terms.specs.Fixings.{IsRate, Stored, fixing_on, with_fixing};
ghost use Rattle.desk_terms.specs.declared.terms.Terms.TheVariants.{Index};
ghost use Rattle.desk_terms.specs.Reading.{index_reading};
ghost use Rattle.desk_model.specs.Uses.{index_in};
ghost use Rattle.desk_model.specs.Changeable.{changeable};
ghost use Rattle.desk_model.specs.Market.{terms_in};
ghost use Rattle.desk_model.specs.declared.slot.Slot.TheVariants.{Free, Live};
ghost use Rattle.object_store.specs.Slots.{has_fixings};

use crate::objects::Objects;
use day_number::Day;
use desk_model::Slot;
use desk_names::ObjId;
use desk_terms::{FixFault, IndexUse, Terms};
use fixed_amount::Rate;

/// Returns an index as a price uses it. `None` if the object is no index.
pub fn index_of(objects: &Objects, object: ObjId) -> Option<IndexUse<'_>>
    ensures { index_reading result ≡ index_in object (terms_in (slice_index_or objects.now object Free)) }
{
    match objects.terms(object) {
        None => None,
        Some(terms) => index_held(object, terms),
    }
}

// Returns an object as an index, if its terms are those of one.
fn index_held(object: ObjId, terms: &Terms) -> Option<IndexUse<'_>>
    ensures { index_reading result ≡ index_in object (Some terms.now) }
{
    match terms {
        Terms::Index(index, fixings) => Some(IndexUse {
            object,
            terms: index,
            fixings,
        }),
        Terms::Quote(_)
        | Terms::Derived { .. }
        | Terms::Handle { .. }
        | Terms::Engine { .. }
        | Terms::Curve(_)
        | Terms::Implied { .. }
        | Terms::Stock { .. }
        | Terms::Composite(_)
        | Terms::Flows(..) => None,
    }
}

/// Stores a fixing for a day without one, in the object of a slot.
///
/// # Errors
///
/// `FixFault::Exists` or `NoMemory`. Then nothing has changed.
pub fn store_in(slot: &mut Slot, day: Day, rate: Rate) -> Result<(), FixFault>
    requires index { has_fixings (changeable (terms_in slot.old)) ≡ true }
    requires rate { IsRate rate }
    ensures exists { (terms : IndexTerms) (fixings : Stored) → terms_in slot.old ≡ Some (Index terms fixings) → (kept : ℤ) → (result ≡ Err (Exists kept)) ↔ (fixing_on fixings day ≡ Some kept) }
    ensures added { OnOk result ((terms : IndexTerms) (fixings : Stored) → terms_in slot.old ≡ Some (Index terms fixings) → slot.new ≡ Live (Index terms (with_fixing fixings day rate))) }
    ensures same { OnErr result (slot.new ≡ slot.old) }
{
    match slot {
        Slot::Live(terms) => store_held(terms, day, rate),
        Slot::Free | Slot::Today | Slot::Watcher => unreachable!(),
    }
}

// Stores a fixing in terms.
fn store_held(terms: &mut Terms, day: Day, rate: Rate) -> Result<(), FixFault>
    requires index { has_fixings (changeable (Some terms.old)) ≡ true }
    requires rate { IsRate rate }
    ensures exists { (index : IndexTerms) (fixings : Stored) → terms.old ≡ Index index fixings → (kept : ℤ) → (result ≡ Err (Exists kept)) ↔ (fixing_on fixings day ≡ Some kept) }
    ensures added { OnOk result ((index : IndexTerms) (fixings : Stored) → terms.old ≡ Index index fixings → terms.new ≡ Index index (with_fixing fixings day rate)) }
    ensures same { OnErr result (terms.new ≡ terms.old) }
{
    match terms {
        Terms::Index(_, fixings) => fixings.add(day, rate),
        Terms::Quote(_)
        | Terms::Derived { .. }
        | Terms::Handle { .. }
        | Terms::Curve(_)
        | Terms::Implied { .. }
        | Terms::Engine { .. }
        | Terms::Stock { .. }
        | Terms::Composite(_)
        | Terms::Flows(..) => unreachable!(),
    }
}
