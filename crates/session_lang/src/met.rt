// The names in the latest lines, so that a name that comes again is compared and not looked up.
ghost use Rattle.std.specs.Prelude.{◌≡◌, ◌<◌, Some, true, slice_get, replicate, IfSome};
ghost use Rattle.desk_names.specs.Names.{IsNames};
ghost use Rattle.session_lang.specs.declared.met.TheConstants.{MOST_MET};

use desk_names::{NameId, Names};

// How many names are kept.
const MOST_MET: usize = 64;

/// The numbers of names in the latest lines. A kept number is checked before it is used, so it changes no result.
#[derive(Drop)]
pub struct Met {
    names: [NameId; MOST_MET],
}

impl Met {
    /// Starts without names: each place has the first number, which is checked as any other.
    pub fn new() -> Met
        ensures { result.names ≡ replicate MOST_MET 0 }
    {
        Met {
            names: [NameId(0); MOST_MET],
        }
    }

    // Returns the number of a known name. Its place is given by its first and last byte, and what is kept there is tried first.
    pub(crate) fn number_of(&mut self, text: &[u8], names: &Names) -> Option<NameId>
        ensures at { IfSome result (λ name. slice_get names.now name ≡ Some text.now) }
        ensures names { IsNames names.now }
    {
        let at = place_of(text);
        let name = self.names[at];
        if is_named(text, names, name) {
            return Some(name);
        }
        let name = names.find(text)?;
        self.names[at] = name;
        Some(name)
    }
}

// Returns whether the name with this number has this text.
fn is_named(text: &[u8], names: &Names, name: NameId) -> bool
    ensures named { result ≡ true → slice_get names.now name ≡ Some text.now }
    ensures names { IsNames names.now }
{
    name.0 < names.len() && names.text(name) == text
}

// Returns the place of a name.
fn place_of(text: &[u8]) -> usize
    ensures { result < 64 }
{
    match text {
        [] => 0,
        [first, ..] => (*first as usize + 3 * text[text.len() - 1] as usize) % MOST_MET,
    }
}
