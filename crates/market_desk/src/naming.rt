// The names of a market's objects.
ghost use Rattle.std.specs.Prelude.{◌≡◌, IfOk};
ghost use Rattle.market_desk.specs.Making.{names_with};

use desk_names::{NameId, NameList};
use market_file::MadeList;
use std::alloc::{AllocError, Global};

// The names of the objects on the desk of a market, by the objects' numbers: that of `today`, the first of the market,
// and then that of each object.
pub(crate) fn names_of(alloc: Global, made: &MadeList) -> Result<NameList, AllocError>
    ensures { IfOk result (λ names. names ≡ names_with made.now.items) }
{
    let mut names = NameList::new(alloc);
    names.push(NameId(0))?;
    for (name, _) in made {
        names.push(*name)?;
    }
    Ok(names)
}
