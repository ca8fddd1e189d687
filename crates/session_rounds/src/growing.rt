// Adds names, actions and objects to a session with watchers.
ghost use Rattle.std.specs.Prelude.{◌≡◌, ◌<◌, ◌≤◌, ◌↔◌, true, false, length, Some, All, IfOk, IfErr, OnOk, OnErr, IsOk, IsErrOf};
ghost use Rattle.desk_names.specs.Name.{is_name, IsName};
ghost use Rattle.desk_names.specs.Names.{has_text, place_of, most_names};
ghost use Rattle.desk_terms.specs.Reading.{Calc, AreInRange};
ghost use Rattle.desk_model.specs.Links.{AreOfKind};
ghost use Rattle.desk_model.specs.Sound.{IsSound, KeepsCurrent};
ghost use Rattle.session_core.specs.Steps.{with_object, AnswersMake};
ghost use Rattle.session_core.specs.declared.growing.TheConstants.{MOST_ACTIONS};
ghost use Rattle.session_model.specs.Standing.{IsKnown};
ghost use Rattle.session_model.specs.Resolve.{making, unless_taken};
ghost use Rattle.session_model.specs.Growing.{with_action};
ghost use Rattle.session_model.specs.Grown.{learn_in, interned_in};

use crate::WatchedSession;
use desk_names::{MOST_NAMES, NameFault, NameId, ObjId, is_name};
use desk_terms::Terms;
use session_commands::{ActionId, CommandList};
use session_core::{ActionFault, MakeFault};
use watch_rounds::Picker;

impl<P: Picker> WatchedSession<P> {
    /// Returns the number of a name. A new name is appended: it names no object, no watcher of it has an action, and none of its
    /// runs began. A known name keeps its number and takes no memory. A stopped session takes names, too.
    ///
    /// # Errors
    ///
    /// `Form` where the text is no name, `Full` where it is new and the session has 65,536 names, `NoMemory` where memory runs out.
    pub fn intern(&mut self, text: &[u8]) -> Result<NameId, NameFault>
        ensures place { IfOk result (λ name. name ≡ place_of self.old.standing.names text.now) }
        ensures kept { OnOk result (self.new ≡ interned_in text.now self.old) }
        ensures same { OnErr result (self.new ≡ self.old) }
        ensures known { has_text self.old.standing.names text.now ≡ true → IsOk result }
        ensures form { IsErrOf result NameFault.Form ↔ (is_name text.now ≡ false) }
        ensures full { IsErrOf result NameFault.Full ↔ (IsName text.now
            × (length self.old.standing.names ≡ most_names) × (has_text self.old.standing.names text.now ≡ false)) }
        ensures sound { (calc : Calc) → IsSound calc self.old.standing.state → IsSound calc self.new.standing.state }
    {
        if let Some(known) = self.session.names().find(text) {
            return Ok(known);
        }
        if !is_name(text) {
            return Err(NameFault::Form);
        }
        if self.session.names().len() == MOST_NAMES {
            return Err(NameFault::Full);
        }
        self.learn(text)
    }

    // Appends a new name, after room for its runs is reserved.
    fn learn(&mut self, text: &[u8]) -> Result<NameId, NameFault>
        requires new { has_text self.old.standing.names text.now ≡ false }
        requires named { IsName text.now }
        requires room { length self.old.standing.names < most_names }
        ensures place { IfOk result (λ name. name ≡ place_of self.old.standing.names text.now) }
        ensures learnt { OnOk result (self.new ≡ learn_in text.now self.old) }
        ensures same { OnErr result (self.new ≡ self.old) }
        ensures memory { IfErr result (λ fault. fault ≡ NameFault.NoMemory) }
    {
        self.settled = false;
        self.heard = false;
        self.rounds.reserve(self.session.names().len() + 1)?;
        let name = self.session.intern(text)?;
        self.rounds.count_name();
        Ok(name)
    }

    /// Appends an action of these commands and returns its number. The commands may name the action itself. A stopped session takes
    /// actions, too.
    ///
    /// # Errors
    ///
    /// `Full` exactly where the session has 65,536 actions or more, `NoMemory` where memory runs out.
    pub fn add_action(&mut self, block: CommandList) -> Result<ActionId, ActionFault>
        requires known { All (IsKnown (with_action block self.old.standing)) block }
        ensures number { IfOk result (λ action. action ≡ length self.old.standing.actions) }
        ensures added { OnOk result (self.new ≡ record self.old { standing = with_action block self.old.standing }) }
        ensures same { OnErr result (self.new ≡ self.old) }
        ensures full { IsErrOf result ActionFault.Full ↔ (MOST_ACTIONS ≤ length self.old.standing.actions) }
        ensures sound { (calc : Calc) → IsSound calc self.old.standing.state → IsSound calc self.new.standing.state }
    {
        self.settled = false;
        self.heard = false;
        self.session.add_action(block)
    }

    /// Makes an object with this name and these terms and returns its number, which is the count of numbers given before.
    ///
    /// # Errors
    ///
    /// `Refused(Taken)` where a live object has the name, then `Refused(TooMany)` where there is no room, and `NoMemory` where
    /// memory runs out. Then the session is as before.
    pub fn make(&mut self, name: NameId, terms: Terms) -> Result<ObjId, MakeFault>
        requires running { self.old.standing.stopped ≡ false }
        requires named { name < length self.old.standing.names }
        requires ranged { AreInRange terms }
        requires inputs { AreOfKind self.old.standing.state.market (Some terms) }
        ensures number { IfOk result (λ object. object ≡ length self.old.standing.state.market.objects) }
        ensures made { OnOk result (self.new ≡ record self.old { standing = with_object name terms self.old.standing }) }
        ensures answer { AnswersMake (unless_taken self.old.standing name (making self.old.standing name terms)) result }
        ensures same { OnErr result (self.new ≡ self.old) }
        ensures keeps { KeepsCurrent self.old.standing.state self.new.standing.state }
        ensures sound { (calc : Calc) → IsSound calc self.old.standing.state → IsSound calc self.new.standing.state }
    {
        self.settled = false;
        self.heard = false;
        self.session.watchers();
        self.session.free(name)?;
        self.session.room()?;
        self.rounds.grow(0, self.session.numbers() + 2)?;
        self.session.make(name, terms)
    }
}
