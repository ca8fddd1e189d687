// The parts of a composite: reads, appends and replaces them.
ghost use Rattle.std.specs.Prelude.{◌≡◌, ◌<◌, ◌++◌, ◌∷◌, [], List, Some, OnOk, OnErr, length, take, slice_index_or, slice_set};
ghost use Rattle.desk_terms.specs.declared.terms.Terms.TheVariants.{Composite};
ghost use Rattle.desk_terms.specs.declared.terms.Part.{Part};
ghost use Rattle.desk_model.specs.Changeable.{changeable};
ghost use Rattle.desk_model.specs.Market.{terms_in};
ghost use Rattle.desk_model.specs.declared.slot.Slot.TheVariants.{Free, Live};
ghost use Rattle.object_store.specs.Parts.{parts_in, parts_held};

use crate::objects::Objects;
use desk_model::Slot;
use desk_names::ObjId;
use desk_terms::{Part, Terms};
use std::alloc::AllocError;

/// Returns the parts of a composite. There are none if the object is no composite.
pub fn parts_of(objects: &Objects, composite: ObjId) -> &[Part]
    ensures { result.now ≡ parts_in (slice_index_or objects.now composite Free) }
{
    match objects.terms(composite) {
        Some(terms) => parts_held(terms),
        None => &[],
    }
}

// Returns the parts in terms.
fn parts_held(terms: &Terms) -> &[Part]
    ensures { result.now ≡ parts_held (changeable (Some terms.now)) }
{
    match terms {
        Terms::Composite(parts) => parts.items(),
        Terms::Quote(_)
        | Terms::Derived { .. }
        | Terms::Handle { .. }
        | Terms::Curve(_)
        | Terms::Implied { .. }
        | Terms::Index(..)
        | Terms::Engine { .. }
        | Terms::Stock { .. }
        | Terms::Flows(..) => &[],
    }
}

/// Appends a part to the object in a slot.
///
/// # Errors
///
/// `AllocError` where memory runs out. Then nothing has changed.
pub fn push_in(slot: &mut Slot, part: Part) -> Result<(), AllocError>
    ensures pushed { OnOk result ((parts : List Part) → terms_in slot.old ≡ Some (Composite parts) → slot.new ≡ Live (Composite (parts ++ part ∷ []))) }
    ensures same { OnErr result (slot.new ≡ slot.old) }
{
    match slot {
        Slot::Live(terms) => push_held(terms, part),
        Slot::Free | Slot::Today | Slot::Watcher => Ok(()),
    }
}

// Appends a part to terms.
fn push_held(terms: &mut Terms, part: Part) -> Result<(), AllocError>
    ensures pushed { OnOk result ((parts : List Part) → terms.old ≡ Composite parts → terms.new ≡ Composite (parts ++ part ∷ [])) }
    ensures same { OnErr result (terms.new ≡ terms.old) }
{
    match terms {
        Terms::Composite(parts) => parts.push(part),
        Terms::Quote(_)
        | Terms::Derived { .. }
        | Terms::Handle { .. }
        | Terms::Curve(_)
        | Terms::Implied { .. }
        | Terms::Index(..)
        | Terms::Engine { .. }
        | Terms::Stock { .. }
        | Terms::Flows(..) => Ok(()),
    }
}

/// Keeps the first `len` parts of the object in a slot. Takes no memory.
pub fn keep_in(slot: &mut Slot, len: usize)
    ensures { (parts : List Part) → terms_in slot.old ≡ Some (Composite parts) → slot.new ≡ Live (Composite (take len parts)) }
{
    match slot {
        Slot::Live(terms) => keep_held(terms, len),
        Slot::Free | Slot::Today | Slot::Watcher => {}
    }
}

// Keeps the first parts of terms.
fn keep_held(terms: &mut Terms, len: usize)
    ensures { (parts : List Part) → terms.old ≡ Composite parts → terms.new ≡ Composite (take len parts) }
{
    match terms {
        Terms::Composite(parts) => parts.truncate(len),
        Terms::Quote(_)
        | Terms::Derived { .. }
        | Terms::Handle { .. }
        | Terms::Curve(_)
        | Terms::Implied { .. }
        | Terms::Index(..)
        | Terms::Engine { .. }
        | Terms::Stock { .. }
        | Terms::Flows(..) => {}
    }
}

/// Replaces a part of the object in a slot. Takes no memory.
pub fn put_in(slot: &mut Slot, at: usize, part: Part)
    requires { at < length (parts_in slot.old) }
    ensures { (parts : List Part) → terms_in slot.old ≡ Some (Composite parts) → slot.new ≡ Live (Composite (slice_set parts at part)) }
{
    match slot {
        Slot::Live(terms) => put_held(terms, at, part),
        Slot::Free | Slot::Today | Slot::Watcher => {}
    }
}

// Replaces a part of terms.
fn put_held(terms: &mut Terms, at: usize, part: Part)
    requires { at < length (parts_held (changeable (Some terms.old))) }
    ensures { (parts : List Part) → terms.old ≡ Composite parts → terms.new ≡ Composite (slice_set parts at part) }
{
    match terms {
        Terms::Composite(parts) => parts.set(at, part),
        Terms::Quote(_)
        | Terms::Derived { .. }
        | Terms::Handle { .. }
        | Terms::Curve(_)
        | Terms::Implied { .. }
        | Terms::Index(..)
        | Terms::Engine { .. }
        | Terms::Stock { .. }
        | Terms::Flows(..) => {}
    }
}
