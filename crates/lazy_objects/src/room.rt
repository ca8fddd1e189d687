// Spare places in the graph for targets and engines that are set later.
ghost use Rattle.std.specs.Prelude.{◌≡◌, ◌≤◌, ◌<◌, ◌+◌, ◌^◌, ℕ, OnOk, OnErr, if◌then◌else◌};
ghost use Rattle.object_store.specs.Shape.{vacancy_of};

use desk_terms::Terms;
use object_store::Store;
use std::alloc::AllocError;

/// Reserves a place for the pair of an object with these terms that has no target or engine yet, beside the places of the
/// `numbers` objects before it, at most one each. Other objects need no place.
///
/// # Errors
///
/// `AllocError` where memory runs out. Then nothing has changed.
pub fn make_room(store: &mut Store, terms: &Terms, numbers: usize) -> Result<(), AllocError>
    requires few { numbers < 2 ^ 16 }
    ensures spares { OnOk result (store.new ≡ record store.old { shape = record store.old.shape { spare = store.new.shape.spare } }) }
    ensures more { store.old.shape.spare ≤ store.new.shape.spare }
    ensures room { OnOk result ((n : ℕ) → n ≤ store.old.shape.spare → n ≤ numbers → n + vacancy_of terms.now ≤ store.new.shape.spare) }
    ensures same { OnErr result (store.new ≡ store.old) }
{
    if is_vacant(terms) {
        return store.deferral.graph.reserve(numbers as u32 + 1);
    }
    Ok(())
}

// Returns whether an object with these terms has no target or engine and may get one.
fn is_vacant(terms: &Terms) -> bool
    ensures { vacancy_of terms.now ≡ (if result then 1 else 0) }
{
    match terms {
        Terms::Handle { target, .. } => target.is_none(),
        Terms::Flows(_, engine) => engine.is_none(),
        Terms::Quote(_)
        | Terms::Derived { .. }
        | Terms::Curve(_)
        | Terms::Implied { .. }
        | Terms::Index(..)
        | Terms::Engine { .. }
        | Terms::Stock { .. }
        | Terms::Composite(_) => false,
    }
}
