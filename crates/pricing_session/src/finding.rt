// Objects and values by name.
ghost use Rattle.std.specs.Prelude.{◌≡◌, option_copied};
ghost use Rattle.session_model.specs.Standing.{object_named};
ghost use Rattle.pricing_session.specs.Finding.{value_by};

use crate::{BenchSession, Beside};
use desk_names::{NameId, ObjId};
use desk_terms::{Bench, Value};
use session_core::Session;
use watch_rounds::Picker;

impl<P: Picker + Drop, B: Bench + Drop, L: Beside<P> + Drop> BenchSession<P, B, L> {
    /// Returns the live object of a name, by the number that terms use. Takes no memory.
    pub fn object(&self, name: NameId) -> Option<ObjId>
        ensures { result ≡ object_named self.now.running.standing name }
    {
        object_in(&self.session, name)
    }

    /// Returns the last value of the live lazy object with this name. `None` if the text is no name of the session, there is no such
    /// object, or it has no value yet. Takes no memory.
    pub fn value_of(&self, text: &[u8]) -> Option<&Value>
        ensures { option_copied result ≡ value_by self.now.running.standing text.now }
    {
        match self.name(text) {
            Some(name) => self.value(name),
            None => None,
        }
    }
}

// Returns the live object of a name.
fn object_in(session: &Session, name: NameId) -> Option<ObjId>
    ensures { result ≡ object_named session.now name }
{
    for number in 0..session.numbers() {
        let object = ObjId(number);
        if session.name_of(object) == name && session.desk().kind(object).is_some() {
            return Some(object);
        }
    }
    None
}
