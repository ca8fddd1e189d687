// Adds names and actions to a session.
ghost use Rattle.std.specs.Prelude.{◌≡◌, ◌<◌, ◌≤◌, ◌↔◌, true, false, length, IfOk, IfErr, OnOk, OnErr, IsOk, IsErrOf, vec_len, vec_capacity};
ghost use Rattle.desk_names.specs.Name.{is_name, IsName};
ghost use Rattle.desk_names.specs.Names.{has_text, place_of, most_names};
ghost use Rattle.desk_terms.specs.Reading.{Calc};
ghost use Rattle.desk_model.specs.Sound.{IsSound};
ghost use Rattle.session_model.specs.Growing.{learn, with_action};
ghost use Rattle.session_model.specs.Grown.{interned};
ghost use Rattle.session_core.specs.declared.growing.TheConstants.{MOST_ACTIONS};

use crate::{ActionFault, Session};
use desk_names::{MOST_NAMES, NameFault, NameId, ObjId, is_name};
use session_commands::{ActionId, CommandList};
use std::alloc::AllocError;

/// The greatest number of actions of a session.
pub const MOST_ACTIONS: usize = 65_536;

impl Session {
    /// Returns the number of a name. A new name is appended: it names no object, and no watcher of it has an action. A known name
    /// keeps its number and takes no memory. A stopped session takes names, too.
    ///
    /// # Errors
    ///
    /// `Form` where the text is no name, `Full` where it is new and the session has 65,536 names, `NoMemory` where memory runs out.
    pub fn intern(&mut self, text: &[u8]) -> Result<NameId, NameFault>
        ensures place { IfOk result (λ name. name ≡ place_of self.old.names text.now) }
        ensures kept { OnOk result (self.new ≡ interned text.now self.old) }
        ensures same { OnErr result (self.new ≡ self.old) }
        ensures known { has_text self.old.names text.now ≡ true → IsOk result }
        ensures form { IsErrOf result NameFault.Form ↔ (is_name text.now ≡ false) }
        ensures full { IsErrOf result NameFault.Full
            ↔ (IsName text.now × (length self.old.names ≡ most_names) × (has_text self.old.names text.now ≡ false)) }
        ensures sound { (calc : Calc) → IsSound calc self.old.state → IsSound calc self.new.state }
    {
        if let Some(known) = self.names().find(text) {
            return Ok(known);
        }
        if !is_name(text) {
            return Err(NameFault::Form);
        }
        if self.names().len() == MOST_NAMES {
            return Err(NameFault::Full);
        }
        self.learn(text)
    }

    // Appends a new name.
    fn learn(&mut self, text: &[u8]) -> Result<NameId, NameFault>
        requires new { has_text self.old.names text.now ≡ false }
        requires named { IsName text.now }
        requires room { length self.old.names < most_names }
        ensures place { IfOk result (λ name. name ≡ place_of self.old.names text.now) }
        ensures learnt { OnOk result (self.new ≡ learn text.now self.old) }
        ensures same { OnErr result (self.new ≡ self.old) }
        ensures memory { IfErr result (λ fault. fault ≡ NameFault.NoMemory) }
    {
        room_for_name(&mut self.watching, &mut self.of_name)?;
        let name = self.names.intern(text)?;
        self.watching.push_reserved(None);
        self.of_name.push_reserved(None);
        Ok(name)
    }

    /// Appends an action of these commands and returns its number. A stopped session takes actions, too.
    ///
    /// # Errors
    ///
    /// `Full` exactly where the session has 65,536 actions or more, `NoMemory` where memory runs out.
    pub fn add_action(&mut self, block: CommandList) -> Result<ActionId, ActionFault>
        ensures number { IfOk result (λ action. action ≡ length self.old.actions) }
        ensures added { OnOk result (self.new ≡ with_action block self.old) }
        ensures same { OnErr result (self.new ≡ self.old) }
        ensures full { IsErrOf result ActionFault.Full ↔ (MOST_ACTIONS ≤ length self.old.actions) }
        ensures sound { (calc : Calc) → IsSound calc self.old.state → IsSound calc self.new.state }
    {
        let number = self.actions.len();
        if number >= MOST_ACTIONS {
            return Err(ActionFault::Full);
        }
        self.actions.push(block)?;
        Ok(ActionId(number as u32))
    }
}

// Reserves room for one more name in the tables by name.
fn room_for_name(
    watching: &mut Vec<Option<ActionId>>,
    of_name: &mut Vec<Option<ObjId>>,
) -> Result<(), AllocError>
    ensures watching { watching.new.items ≡ watching.old.items }
    ensures of_name { of_name.new.items ≡ of_name.old.items }
    ensures room { OnOk result ((vec_len watching.new < vec_capacity watching.new) × (vec_len of_name.new < vec_capacity of_name.new)) }
{
    watching.reserve(1)?;
    of_name.reserve(1)
}
