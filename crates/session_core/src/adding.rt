// Adds named objects and watchers.
ghost use Rattle.std.specs.Prelude.{◌≡◌, ◌<◌, false, length, Some, None, IfOk, OnOk, OnErr};
ghost use Rattle.desk_terms.specs.Reading.{Calc, AreInRange};
ghost use Rattle.desk_model.specs.Links.{AreOfKind};
ghost use Rattle.desk_model.specs.Sound.{IsSound, KeepsCurrent};
ghost use Rattle.session_model.specs.Standing.{object_named, is_full};
ghost use Rattle.session_model.specs.Resolve.{making, unless_taken};
ghost use Rattle.session_core.specs.Steps.{with_object, with_watcher, AnswersMake};

use crate::{MakeFault, Session};
use desk_names::{NameId, ObjId};
use desk_terms::Terms;
use session_commands::ActionId;
use std::alloc::AllocError;

impl Session {
    /// Makes an object with this name and these terms and returns its number, which is the count of numbers given before.
    ///
    /// # Errors
    ///
    /// `Refused(Taken)` where a live object has the name, then `Refused(TooMany)` where there is no room, and `NoMemory` where
    /// memory runs out. Then the session is as before.
    pub fn make(&mut self, name: NameId, terms: Terms) -> Result<ObjId, MakeFault>
        requires running { self.old.stopped ≡ false }
        requires named { name < length self.old.names }
        requires ranged { AreInRange terms }
        requires inputs { AreOfKind self.old.state.market (Some terms) }
        ensures number { IfOk result (λ object. object ≡ length self.old.state.market.objects) }
        ensures made { OnOk result (self.new ≡ with_object name terms self.old) }
        ensures answer { AnswersMake (unless_taken self.old name (making self.old name terms)) result }
        ensures same { OnErr result (self.new ≡ self.old) }
        ensures keeps { KeepsCurrent self.old.state self.new.state }
        ensures sound { (calc : Calc) → IsSound calc self.old.state → IsSound calc self.new.state }
    {
        self.free(name)?;
        self.room()?;
        Ok(self.add(name, terms)?)
    }

    // Makes an object with this name and these terms and returns its number. Out of memory, it releases the name again.
    #[inline(always)]
    pub(crate) fn add(&mut self, name: NameId, terms: Terms) -> Result<ObjId, AllocError>
        requires named { name < length self.old.names }
        requires free { object_named self.old name ≡ None }
        requires room { is_full self.old.state.market ≡ false }
        requires ranged { AreInRange terms }
        requires inputs { AreOfKind self.old.state.market (Some terms) }
        ensures number { IfOk result (λ object. object ≡ length self.old.state.market.objects) }
        ensures made { OnOk result (self.new ≡ with_object name terms self.old) }
        ensures err { OnErr result (self.new ≡ self.old) }
        ensures keeps { KeepsCurrent self.old.state self.new.state }
        ensures sound { (calc : Calc) → IsSound calc self.old.state → IsSound calc self.new.state }
    {
        let numbers = self.of_object.len();
        self.of_object.push(name)?;
        match self.desk.add(terms) {
            Ok(object) => {
                self.of_name[name.place()] = Some(object);
                self.live += 1;
                Ok(object)
            }
            Err(fault) => {
                self.of_object.truncate(numbers);
                Err(fault)
            }
        }
    }

    // Makes a watcher with this name and this action. Out of memory, it releases the name again.
    pub(crate) fn watch(&mut self, name: NameId, action: ActionId) -> Result<(), AllocError>
        requires named { name < length self.old.names }
        requires free { object_named self.old name ≡ None }
        requires room { is_full self.old.state.market ≡ false }
        ensures made { OnOk result (self.new ≡ with_watcher name action self.old) }
        ensures err { OnErr result (self.new ≡ self.old) }
        ensures sound { (calc : Calc) → IsSound calc self.old.state → IsSound calc self.new.state }
    {
        let given = self.of_object.len();
        self.of_object.push(name)?;
        match self.desk.add_watcher() {
            Ok(watcher) => {
                self.of_name[name.place()] = Some(watcher);
                self.watching[name.place()] = Some(action);
                self.live += 1;
                Ok(())
            }
            Err(fault) => {
                self.of_object.truncate(given);
                Err(fault)
            }
        }
    }
}
