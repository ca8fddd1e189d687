// The texts of names.
ghost use Rattle.std.specs.Prelude.{◌≡◌, ◌<◌, length, map, All, IfOk};
ghost use Rattle.desk_names.specs.Names.{IsNames};
ghost use Rattle.session_commands.specs.Whole.{name_text};

use crate::learning::add_new;
use desk_names::{NameId, Names};
use std::alloc::{AllocError, Global};

/// Returns the texts of these names, which must differ, in order: for instance those of the actions of a script.
///
/// # Errors
///
/// `AllocError` where memory runs out.
pub fn texts_of(alloc: Global, names: &Names, numbers: &[NameId]) -> Result<Names, AllocError>
    requires known { All (λ name. name < length names.now) numbers.now }
    requires named { IsNames (map (name_text names.now) numbers.now) }
    ensures { IfOk result (λ texts. texts ≡ map (name_text names.now) numbers.now) }
{
    let mut texts = Names::new(alloc);
    for number in numbers {
        add_new(&mut texts, names.text(*number))?;
    }
    Ok(texts)
}
