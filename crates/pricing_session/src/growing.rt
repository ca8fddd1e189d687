// Adds actions, names and objects to a session.
ghost use Rattle.std.specs.Prelude.{◌≡◌, ◌≤◌, ◌↔◌, true, false, length, All, IfOk, IfSome, IfNone, OnOk, OnErr, IsOk, IsErrOf, IsTrue};
ghost use Rattle.desk_names.specs.Name.{is_name, IsName};
ghost use Rattle.desk_names.specs.Names.{has_text, place_of, most_names};
ghost use Rattle.session_core.specs.declared.growing.TheConstants.{MOST_ACTIONS};
ghost use Rattle.session_commands.specs.Whole.{IsCommand};
ghost use Rattle.session_model.specs.Growing.{with_action};
ghost use Rattle.session_model.specs.Grown.{interned_in};
ghost use Rattle.session_core.specs.Steps.{with_object};
ghost use Rattle.pricing_session.specs.Making.{MayTry, IsUnmade, AnswersMake};
ghost use Rattle.pricing_session.specs.Taking.{LacksBlock};

use crate::known::is_known;
use crate::serving::are_served;
use crate::{BenchSession, Beside, BlockFault, ObjectFault, PricingSession};
use desk_names::{NameFault, NameId, ObjId};
use desk_terms::{Bench, Terms};
use instrument_terms::are_in_range;
use session_commands::{ActionId, Command, CommandList};
use session_core::{ActionFault, MOST_ACTIONS, MakeFault};
use watch_rounds::Picker;

impl<P: Picker + Drop, B: Bench + Drop> PricingSession<P, B> {
    /// Appends an action of these commands and returns its number. The commands may name the action itself. A stopped session takes
    /// actions, too.
    ///
    /// # Errors
    ///
    /// `Full` where the session has 65,536 actions, `Unknown` where a command has a name or an action that the session lacks or a
    /// number beyond its limit, `NoMemory` where memory runs out. Then nothing has changed.
    pub fn add_action(&mut self, block: CommandList) -> Result<ActionId, BlockFault>
        ensures number { IfOk result (λ action. action ≡ length self.old.running.standing.actions) }
        ensures added { OnOk result (self.new ≡ record self.old {
          running = record self.old.running { standing = with_action block self.old.running.standing };
          beside = self.new.beside;
        }) }
        ensures same { OnErr result (self.new ≡ self.old) }
        // It is not tried exactly in these cases.
        ensures full { IsErrOf result BlockFault.Full ↔ (MOST_ACTIONS ≤ length self.old.running.standing.actions) }
        ensures unknown { IsErrOf result BlockFault.Unknown ↔ LacksBlock self.old.running.standing block }
    {
        let actions = self.beside.actions;
        if actions >= MOST_ACTIONS {
            return Err(BlockFault::Full);
        }
        if !are_known(self.names().len(), actions + 1, block.items()) {
            return Err(BlockFault::Unknown);
        }
        match self.session.add_action(block) {
            Ok(action) => {
                self.beside.actions = actions + 1;
                Ok(action)
            }
            Err(ActionFault::NoMemory) => Err(BlockFault::NoMemory),
            // There is room.
            Err(ActionFault::Full) => unreachable!(),
        }
    }
}

impl<P: Picker + Drop, B: Bench + Drop, L: Beside<P> + Drop> BenchSession<P, B, L> {
    /// Returns the number of a name. A new name is appended: it names no object, and no watcher of it has an action. A known name
    /// keeps its number and takes no memory. A stopped session takes names, too.
    ///
    /// # Errors
    ///
    /// `Form` where the text is no name, `Full` where it is new and the session has 65,536 names, `NoMemory` where memory runs out.
    pub fn intern(&mut self, text: &[u8]) -> Result<NameId, NameFault>
        ensures place { IfOk result (λ name. name ≡ place_of self.old.running.standing.names text.now) }
        ensures kept { OnOk result (self.new ≡ record self.old {
          running = interned_in text.now self.old.running;
          beside = self.new.beside;
        }) }
        ensures beside { OnOk result (L.keeps self.old.beside self.new.beside) }
        ensures same { OnErr result (self.new ≡ self.old) }
        ensures known { has_text self.old.running.standing.names text.now ≡ true → IsOk result }
        ensures form { IsErrOf result NameFault.Form ↔ (is_name text.now ≡ false) }
        ensures full { IsErrOf result NameFault.Full ↔ (IsName text.now
            × (length self.old.running.standing.names ≡ most_names)
            × (has_text self.old.running.standing.names text.now ≡ false)) }
    {
        self.beside.intern(&mut self.session, text)
    }

    /// Makes an object with this name and these terms and returns its number, which is the count of numbers given before.
    ///
    /// # Errors
    ///
    /// The first reason that applies, in the order of `ObjectFault`. Then the session is as before.
    pub fn make(&mut self, name: NameId, terms: Terms) -> Result<ObjId, ObjectFault>
        ensures number { IfOk result (λ object. object ≡ length self.old.running.standing.state.market.objects) }
        ensures made { OnOk result (self.new ≡ record self.old {
          running = record self.old.running { standing = with_object name terms self.old.running.standing };
        }) }
        ensures answer { AnswersMake self.old.running.standing name terms result }
        ensures same { OnErr result (self.new ≡ self.old) }
    {
        if let Some(fault) = self.fault_of(name, &terms) {
            return Err(fault);
        }
        match self.session.make(name, terms) {
            Ok(object) => Ok(object),
            Err(MakeFault::Refused(refusal)) => Err(ObjectFault::Refused(refusal)),
            Err(MakeFault::NoMemory) => Err(ObjectFault::NoMemory),
        }
    }

    // Returns why the object is not made, if there is a reason before memory is needed.
    fn fault_of(&self, name: NameId, terms: &Terms) -> Option<ObjectFault>
        ensures fault { IfSome result (IsUnmade self.now.running.standing name terms.now) }
        ensures none { IfNone result (MayTry self.now.running.standing name terms.now) }
    {
        if self.is_stopped() {
            return Some(ObjectFault::Stopped);
        }
        if name.0 >= self.names().len() {
            return Some(ObjectFault::Unknown);
        }
        if !are_in_range(terms) {
            return Some(ObjectFault::Limits);
        }
        if !are_served(self.desk(), terms) {
            return Some(ObjectFault::Inputs);
        }
        None
    }
}

// Returns whether each command has only so many names and actions, and numbers within their limits.
fn are_known(names: u32, actions: usize, commands: &[Command]) -> bool
    ensures { IsTrue result ↔ All (IsCommand names actions) commands.now }
{
    commands
        .iter()
        .all(|command| is_known(names, actions, command))
}
