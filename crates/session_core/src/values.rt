// Values of objects by name.
ghost use Rattle.std.specs.Prelude.{◌≡◌, option_copied};
ghost use Rattle.session_model.specs.declared.place.Place.TheVariants.{Priced};
ghost use Rattle.session_model.specs.Resolve.{find};
ghost use Rattle.session_core.specs.Values.{value_of, is_current_of, held_of};

use crate::Session;
use desk_names::{NameId, ObjId};
use desk_terms::{Asked, Value};
use session_commands::Refusal;
use session_model::Place;

impl Session {
    /// Returns the live lazy object of a name.
    ///
    /// # Errors
    ///
    /// The refusal of a command that asks for it: `Unknown` or `Kind`.
    pub fn priced(&self, name: NameId) -> Result<ObjId, Refusal>
        ensures { result ≡ find Priced self.now name }
    {
        self.find(Place::Priced, name)
    }

    /// Returns the last value of the live lazy object of a name. `None` if there is no such object, or it has no value yet.
    pub fn value(&self, name: NameId) -> Option<&Value>
        ensures { option_copied result ≡ value_of self.now name }
    {
        match self.find(Place::Priced, name) {
            Ok(object) => self.desk.last(object),
            Err(_) => None,
        }
    }

    /// Returns whether that value is current: no dependency has changed since it was computed. False if there is no such object.
    pub fn is_current(&self, name: NameId) -> bool
        ensures { result ≡ is_current_of self.now name }
    {
        match self.find(Place::Priced, name) {
            Ok(object) => self.desk.marks(object).current,
            Err(_) => false,
        }
    }

    /// Returns the result of an ask of the live lazy object of a name, if it is frozen, late or current: its last value, or that it
    /// has none. `None` exactly if it is none of these, or there is no such object. Computes nothing and takes no memory.
    pub fn ask_held(&mut self, name: NameId) -> Option<Asked>
        ensures answer { result ≡ held_of self.old name }
        ensures same { self.new ≡ self.old }
    {
        match self.find(Place::Priced, name) {
            Ok(object) => self.desk.ask_held(object),
            Err(_) => None,
        }
    }
}
