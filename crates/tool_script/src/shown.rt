// What one block has shown.
ghost use Rattle.std.specs.Prelude.{◌≡◌, None, slice_index_or};

use desk_names::NameId;
use fixed_amount::Amount;
use item_lists::Items;

/// What one block has shown: a scenario, or a step.
#[derive(Drop)]
pub struct Shown {
    /// The name of its block; none of what has no moves.
    pub name: Option<NameId>,
    /// The money that each ask shows, in order; none where an ask shows none.
    pub values: Items<Option<Amount>>,
}

/// The money that a block shows for the ask at a place; none where it shows none.
pub fn value_at(shown: &Shown, at: usize) -> Option<Amount>
    ensures { result ≡ slice_index_or shown.now.values at None }
{
    match shown.values.items().get(at) {
        Some(value) => *value,
        None => None,
    }
}
