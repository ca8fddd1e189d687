// The names of objects.
ghost use Rattle.std.specs.Prelude.{◌≡◌};
ghost use Rattle.price_report.specs.Namer.{name_text, object_text};

use desk_names::{NameId, NameList, Names, ObjId};

/// The texts of names by their numbers, and the names of objects by theirs.
#[derive(Clone, Copy)]
pub struct Namer<'a> {
    pub names: &'a Names,
    pub of_object: &'a NameList,
}

impl<'a> Namer<'a> {
    /// The text of a name, or no bytes where the number stands for no name.
    pub fn name(&self, name: NameId) -> &'a [u8]
        ensures { result.now ≡ name_text self.now.names.now name }
    {
        text_of(self.names, name)
    }

    /// The name of an object, or no bytes where it has none.
    pub fn object(&self, object: ObjId) -> &'a [u8]
        ensures { result.now ≡ object_text self.now.names.now self.now.of_object.now object }
    {
        match self.of_object.items().get(object.place()) {
            Some(name) => self.name(*name),
            None => b"",
        }
    }
}

// The text of a name, or no bytes where the number stands for no name.
pub(crate) fn text_of(names: &Names, name: NameId) -> &[u8]
    ensures { result.now ≡ name_text names.now name }
{
    if name.0 < names.len() {
        names.text(name)
    } else {
        b""
    }
}
