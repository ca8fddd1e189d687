// The target of a handle, and the pair in the graph that belongs to a target or an engine.
ghost use Rattle.std.specs.Prelude.{◌≡◌, ◌<◌, ◌+◌, ℕ, true, Some, None, IfSome, is_some, slice_index_or};
ghost use Rattle.walks.specs.Walk.{Among};
ghost use Rattle.desk_terms.specs.declared.terms.Terms.TheVariants.{Handle};
ghost use Rattle.desk_model.specs.Market.{terms_in};
ghost use Rattle.desk_model.specs.declared.slot.Slot.TheVariants.{Free};
ghost use Rattle.object_store.specs.Slots.{is_handle};
ghost use Rattle.object_store.specs.Shape.{role_at, observed_by};
ghost use Rattle.object_store.specs.Store.{JoinsAny, LeavesAny, Moves, held_count};

use desk_names::ObjId;
use desk_terms::{HandleKind, Terms};
use object_store::{Objects, Store};

/// The target of a handle and its kind.
#[derive(Clone, Copy)]
pub struct Link {
    pub kind: HandleKind,
    pub target: Option<ObjId>,
}

/// Returns the current target of a handle.
pub fn link_of(objects: &Objects, handle: ObjId) -> Link
    requires { is_handle (terms_in (slice_index_or objects.now handle Free)) ≡ true }
    ensures { terms_in (slice_index_or objects.now handle Free) ≡ Some (Handle result.kind result.target) }
{
    match objects.own_terms(handle) {
        Terms::Handle {
            target_kind,
            target,
        } => Link {
            kind: *target_kind,
            target: *target,
        },
        Terms::Quote(_)
        | Terms::Derived { .. }
        | Terms::Curve(_)
        | Terms::Implied { .. }
        | Terms::Index(..)
        | Terms::Engine { .. }
        | Terms::Stock { .. }
        | Terms::Composite(_)
        | Terms::Flows(..) => unreachable!(),
    }
}

/// Makes `observer` observe `subject`, if there is one, in a spare place. Takes no memory.
pub fn watch_any(store: &mut Store, subject: Option<ObjId>, observer: ObjId)
    requires room { IfSome subject (λ _. 0 < store.old.shape.spare) }
    requires subject { IfSome subject (λ x. is_some (role_at store.old.shape x) ≡ true) }
    requires observer { is_some (role_at store.old.shape observer) ≡ true }
    requires new { (x : ℕ) → subject ≡ Some x → Among x (observed_by store.old.shape observer) → ⊥ }
    ensures joins { JoinsAny subject observer store.old store.new }
    ensures spare { store.new.shape.spare + held_count subject ≡ store.old.shape.spare }
{
    match subject {
        None => return,
        Some(object) => store.deferral.graph.watch_spare(object, observer),
    }
}

/// Ends the observation of `subject`, if there is one, which leaves a spare place. Takes no memory.
pub fn unwatch_any(store: &mut Store, subject: Option<ObjId>, observer: ObjId)
    requires subject { IfSome subject (λ x. is_some (role_at store.old.shape x) ≡ true) }
    requires observer { is_some (role_at store.old.shape observer) ≡ true }
    requires watched { (x : ℕ) → subject ≡ Some x → Among x (observed_by store.old.shape observer) }
    ensures leaves { LeavesAny subject observer store.old store.new }
    ensures spare { store.new.shape.spare ≡ store.old.shape.spare + held_count subject }
{
    match subject {
        None => return,
        Some(object) => store.deferral.graph.unwatch(object, observer),
    };
}

/// Replaces the target or engine that `observer` observes: the pair that goes leaves its place to the new one. Where `held` is
/// none, there is a spare place. Takes no memory.
pub fn watch_instead(
    store: &mut Store,
    held: &Option<ObjId>,
    target: &Option<ObjId>,
    observer: ObjId,
)
    requires held { IfSome held.now (λ x. is_some (role_at store.old.shape x) ≡ true) }
    requires target { IfSome target.now (λ x. is_some (role_at store.old.shape x) ≡ true) }
    requires observer { is_some (role_at store.old.shape observer) ≡ true }
    requires watched { (x : ℕ) → held.now ≡ Some x → Among x (observed_by store.old.shape observer) }
    requires new { (x : ℕ) → target.now ≡ Some x → Among x (observed_by store.old.shape observer) → held.now ≡ target.now }
    requires room { held.now ≡ None → 0 < store.old.shape.spare }
    ensures { Moves held.now target.now observer store.old store.new }
{
    if *held == *target {
        return;
    }
    unwatch_any(store, *held, observer);
    watch_any(store, *target, observer);
}
