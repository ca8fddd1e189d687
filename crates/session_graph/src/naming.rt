// The names of the objects of a session.
ghost use Rattle.std.specs.Prelude.{◌≡◌, IfOk};

use desk_names::{NameList, ObjId};
use session_core::Session;
use std::alloc::{AllocError, Global};

// The name of each object, by its number.
pub(crate) fn names_of(alloc: Global, session: &Session) -> Result<NameList, AllocError>
    ensures { IfOk result (λ names. names ≡ session.now.of_object) }
{
    let mut names = NameList::new(alloc);
    for number in 0..session.numbers() {
        names.push(session.name_of(ObjId(number)))?;
    }
    Ok(names)
}
