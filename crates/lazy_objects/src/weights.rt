// The weights of the members of a composite.
ghost use Rattle.std.specs.Prelude.{◌≡◌, ◌≢◌, ◌↔◌, ◌≤◌, ◌++◌, ◌∷◌, [], ℕ, pos, true, false, is_some, Some, IsOk, IfOk, OnOk, OnErr, slice_index_or, slice_set};
ghost use Rattle.walks.specs.Walk.{Among};
ghost use Rattle.desk_terms.specs.Parts.{AreEachInRange};
ghost use Rattle.desk_terms.specs.Terms.{part_references};
ghost use Rattle.desk_terms.specs.declared.kind.Kind.TheVariants as kind;
ghost use Rattle.desk_terms.specs.declared.terms.Terms.TheVariants.{Composite};
ghost use Rattle.desk_model.specs.Market.{kind_in, named};
ghost use Rattle.object_store.specs.Shape.{observed_by, role_at};
ghost use Rattle.object_store.specs.Store.{Joins, Leaves, IsRewatched};
ghost use Rattle.std.specs.Ordering.{int_eq};
ghost use Rattle.desk_model.specs.Changeable.{weight_of, has_member, without_member, with_member};
ghost use Rattle.lazy_objects.specs.Places.{place_of};
ghost use Rattle.desk_model.specs.declared.slot.Slot.TheVariants.{Free, Live};
ghost use Rattle.object_store.specs.Parts.{parts_in};

use desk_names::ObjId;
use desk_terms::{Part, PartList, Terms};
use object_store::{Objects, Store, parts_of};
use std::alloc::{AllocError, Global};

/// Returns the place of a member among the parts, from 0. `None` if it is no member.
pub fn place_of(parts: &[Part], is_member: bool, member: ObjId) -> Option<usize>
    requires { is_member ≡ has_member parts.now member }
    ensures { result ≡ place_of parts.now member }
{
    if !is_member {
        return None;
    }
    parts.iter().position(|part| part.member == member)
}

/// Returns whether the member at a place has this weight. A member without a place has weight 0.
pub fn has_weight(parts: &[Part], member: ObjId, place: Option<usize>, weight: i64) -> bool
    requires { place ≡ place_of parts.now member }
    ensures { result ≡ int_eq (weight_of parts.now member) weight }
{
    weight_at(parts, member, place) == weight
}

// Returns the weight of a part.
fn weight_in(part: &Part) -> i64
    ensures { result ≡ part.now.weight }
{
    part.weight
}

// Returns the weight of the member at a place, and 0 without a place.
fn weight_at(parts: &[Part], member: ObjId, place: Option<usize>) -> i64
    requires { place ≡ place_of parts.now member }
    ensures { result ≡ weight_of parts.now member }
{
    match place {
        Some(at) => weight_in(&parts[at]),
        None => 0,
    }
}

/// Sets the weight of a member: a new one is appended, an existing one keeps its place, and weight 0 removes it. The composite
/// observes its members.
///
/// # Errors
///
/// `AllocError` where memory runs out. Then nothing has changed. A member that keeps its place takes no memory.
pub fn weigh(
    alloc: Global,
    objects: &mut Objects,
    store: &mut Store,
    composite: ObjId,
    member: ObjId,
    weight: i64,
    place: Option<usize>,
) -> Result<(), AllocError>
    requires composite { kind_in (slice_index_or objects.old composite Free) ≡ Some kind.Composite }
    requires observer { is_some (role_at store.old.shape composite) ≡ true }
    requires subject { is_some (role_at store.old.shape member) ≡ true }
    requires watched { (x : ℕ) → Among x (observed_by store.old.shape composite) ↔ Among x (named (part_references (parts_in (slice_index_or objects.old composite Free)))) }
    requires each { AreEachInRange (parts_in (slice_index_or objects.old composite Free)) }
    requires place { place ≡ place_of (parts_in (slice_index_or objects.old composite Free)) member }
    requires differs { int_eq (weight_of (parts_in (slice_index_or objects.old composite Free)) member) weight ≡ false }
    ensures weighed { OnOk result (objects.new ≡ slice_set objects.old composite (Live (Composite (with_member (parts_in (slice_index_or objects.old composite Free)) member weight)))) }
    ensures rewatched { OnOk result (IsRewatched composite (with_member (parts_in (slice_index_or objects.old composite Free)) member weight) store.old store.new) }
    ensures same { OnErr result (objects.new ≡ objects.old) }
    ensures unstored { OnErr result (store.new ≡ store.old) }
    ensures stays { has_member (parts_in (slice_index_or objects.old composite Free)) member ≡ true → weight ≢ pos 0 → IsOk result }
{
    match place {
        None => join(objects, store, composite, member, weight),
        Some(_) if weight == 0 => take_out(alloc, objects, store, composite, member),
        Some(at) => {
            objects.put_part(composite, at, Part { weight, member });
            Ok(())
        }
    }
}

// Appends a member to a composite, which observes it. Out of memory, nothing has changed.
fn join(
    objects: &mut Objects,
    store: &mut Store,
    composite: ObjId,
    member: ObjId,
    weight: i64,
) -> Result<(), AllocError>
    requires composite { kind_in (slice_index_or objects.old composite Free) ≡ Some kind.Composite }
    requires observer { is_some (role_at store.old.shape composite) ≡ true }
    requires subject { is_some (role_at store.old.shape member) ≡ true }
    requires new { Among member (observed_by store.old.shape composite) → ⊥ }
    ensures joined { OnOk result (objects.new ≡ slice_set objects.old composite (Live (Composite (parts_in (slice_index_or objects.old composite Free) ++ record { weight = weight; member = member } ∷ [])))) }
    ensures watched { OnOk result (Joins store.old store.new member composite) }
    ensures spare { store.new.shape.spare ≡ store.old.shape.spare }
    ensures same { OnErr result (objects.new ≡ objects.old) }
    ensures unstored { OnErr result (store.new ≡ store.old) }
{
    let len = parts_of(objects, composite).len();
    objects.push_part(composite, Part { weight, member })?;
    if let Err(fault) = store.deferral.graph.watch(member, composite) {
        objects.keep_parts(composite, len);
        return Err(fault);
    }
    Ok(())
}

// Removes a member from a composite, which observes it no more. Out of memory, nothing has changed.
fn take_out(
    alloc: Global,
    objects: &mut Objects,
    store: &mut Store,
    composite: ObjId,
    member: ObjId,
) -> Result<(), AllocError>
    requires composite { kind_in (slice_index_or objects.old composite Free) ≡ Some kind.Composite }
    requires observer { is_some (role_at store.old.shape composite) ≡ true }
    requires subject { is_some (role_at store.old.shape member) ≡ true }
    ensures taken { OnOk result (objects.new ≡ slice_set objects.old composite (Live (Composite (without_member (parts_in (slice_index_or objects.old composite Free)) member)))) }
    ensures left { OnOk result (Leaves store.old store.new member composite) }
    ensures spare { store.old.shape.spare ≤ store.new.shape.spare }
    ensures same { OnErr result (objects.new ≡ objects.old) }
    ensures unstored { OnErr result (store.new ≡ store.old) }
{
    let rest = without_member(alloc, parts_of(objects, composite), member)?;
    store.deferral.graph.unwatch(member, composite);
    objects.replace(composite, Terms::Composite(rest));
    Ok(())
}

fn without_member(alloc: Global, parts: &[Part], member: ObjId) -> Result<PartList, AllocError>
    ensures { IfOk result (λ rest. rest ≡ without_member parts.now member) }
{
    let mut rest = PartList::new(alloc);
    for part in parts {
        if part.member != member {
            rest.push(*part)?;
        }
    }
    Ok(rest)
}
