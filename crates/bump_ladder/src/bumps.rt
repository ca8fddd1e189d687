// What is moved for an instrument.
ghost use Rattle.std.specs.Prelude.{◌≡◌, IfOk};
ghost use Rattle.bump_model.specs.Sides.{each_then_all};

use crate::{Bump, each};
use desk_names::ObjId;
use item_lists::Items;
use std::alloc::{AllocError, Global};

// Each of these quotes by itself, and then all of them together.
pub(crate) fn each_then_all(alloc: Global, quotes: Items<ObjId>) -> Result<Vec<Bump>, AllocError>
    ensures { IfOk result (λ bumps. bumps.items ≡ each_then_all quotes) }
{
    let mut bumps = each(alloc, quotes.items())?;
    bumps.push(Bump::Together {
        label: None,
        quotes,
    })?;
    Ok(bumps)
}
