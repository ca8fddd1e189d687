// A session: its objects, their names and its actions. In clauses it is a standing of the definition.
ghost use Rattle.std.specs.Prelude.{◌≡◌, ◌<◌, ◌≤◌, ◌+◌, ◌^◌, true, length, codes, None, [], IfOk, IfSome, replicate, slice_get, slice_index_or};
ghost use Rattle.desk_names.specs.Names.{has_text};
ghost use Rattle.desk_terms.specs.Reading.{Calc};
ghost use Rattle.desk_model.specs.Sound.{IsSound};
ghost use Rattle.session_model.specs.Standing.{start_of, name_of};
ghost use Rattle.session_core.specs.Watchers.{AreWatchers};

use day_number::Day;
use desk_names::{NameId, NameList, Names, ObjId};
use lazy_objects::Desk;
use price_report::Namer;
use session_commands::{ActionId, Actions, Command, CommandList};
use std::alloc::{AllocError, Global};
use std::marker::Model;
use std::ops::Deref;

/// A session: its objects with their names, their values, and the actions of its script.
pub struct Session {
    /// Its objects by number. A change from outside neither makes nor removes objects, so that the names stay right.
    pub desk: Desk,
    pub(crate) names: Names,
    pub(crate) of_object: NameList,
    pub(crate) actions: Actions,
    // The action of the watcher that has or had a name, by the name's number.
    pub(crate) watching: Vec<Option<ActionId>>,
    // The live object of each name, by the name's number.
    pub(crate) of_name: Vec<Option<ObjId>>,
    pub(crate) live: usize,
    stopped: bool,
    pub(crate) alloc: Global,
}

// Each exit of an owner of a session calls this once, instead of dropping each field.
impl Drop for Session {
    fn drop(self) {
        let Session {
            desk: _,
            names: _,
            of_object: _,
            actions: _,
            watching: _,
            of_name: _,
            live: _,
            stopped: _,
            alloc: _,
        } = self;
    }
}

impl Model for Session {
    ghost use Rattle.session_model.specs.Standing.{Standing};
    ghost use Rattle.session_core.specs.HasNames.{HasNames};

    ghost Value = { Standing };

    ghost view = { λ s. record {
      state = s.desk;
      names = s.names;
      of_object = s.of_object;
      actions = s.actions;
      watching = s.watching.items;
      stopped = s.stopped;
    } };

    ghost invariant = { λ s. HasNames (record {
      state = s.desk;
      names = s.names;
      of_object = s.of_object;
      actions = s.actions;
      watching = s.watching.items;
      stopped = s.stopped;
    }) s.of_name.items s.live };
}

// The calls that read objects by number.
impl Deref for Session {
    type Target = Desk;

    fn deref(&self) -> &Desk
        ensures { result.now ≡ self.now.state }
    {
        &self.desk
    }
}

impl Session {
    /// Makes a session with these names, `today` among them, this evaluation date and these actions. Its only object is `today`.
    ///
    /// # Errors
    ///
    /// `AllocError` where memory runs out.
    pub fn new(
        alloc: Global,
        names: Names,
        today: Day,
        actions: Actions,
    ) -> Result<Session, AllocError>
        requires { has_text names (codes "today") ≡ true }
        ensures start { IfOk result (λ session. session ≡ start_of today names actions) }
        ensures sound { IfOk result (λ session. (calc : Calc) → IsSound calc session.state) }
    {
        let first = match names.find(b"today") {
            Some(name) => name,
            None => unreachable!(),
        };
        let mut of_object = NameList::new(alloc);
        of_object.push(first)?;
        let mut of_name = unnamed(alloc, names.len() as usize)?;
        of_name[first.place()] = Some(ObjId(0));
        let watching = unwatched(alloc, names.len() as usize)?;
        Ok(Session {
            desk: Desk::new(alloc, today)?,
            names,
            of_object,
            actions,
            watching,
            of_name,
            live: 1,
            stopped: false,
            alloc,
        })
    }

    /// Returns whether an earlier command ran out of memory. A stopped session takes no further command.
    pub fn is_stopped(&self) -> bool
        ensures { result ≡ self.now.stopped }
    {
        self.stopped
    }

    /// Stops the session, since memory ran out elsewhere. It takes no further command.
    pub fn stop(&mut self)
        ensures { self.new ≡ record self.old { stopped = true } }
    {
        self.stopped = true;
    }

    /// Returns the name of an object.
    pub fn name_of(&self, object: ObjId) -> NameId
        requires { object < length self.now.of_object }
        ensures { result ≡ name_of self.now object }
    {
        self.of_object.items()[object.place()]
    }

    /// Returns the action of the watcher that has or had a name.
    pub fn action_of(&self, name: NameId) -> Option<ActionId>
        ensures { result ≡ slice_index_or self.now.watching name None }
    {
        match self.watching.get(name.place()) {
            Some(action) => *action,
            None => None,
        }
    }

    /// Returns the command at a place of an action, from 0, if there is one.
    pub fn command_at(&self, action: ActionId, at: usize) -> Option<Command>
        ensures at { result ≡ slice_get (slice_index_or self.now.actions action []) at }
        ensures low { IfSome result (λ _. at + 1 < 2 ^ 64) }
    {
        match self.actions.items().get(action.place()) {
            Some(commands) => command_in(commands, at),
            None => None,
        }
    }

    /// A law, which does nothing: in every session each watcher has a name that no other live one has.
    pub fn watchers(&self)
        ensures { AreWatchers self.now }
    {
        let _ = &self.of_name;
    }

    /// Returns its objects.
    pub fn desk(&self) -> &Desk
        ensures { result.now ≡ self.now.state }
    {
        &self.desk
    }

    /// Returns its names.
    pub fn names(&self) -> &Names
        ensures { result.now ≡ self.now.names }
    {
        &self.names
    }

    /// Returns the texts of its names with the names of its objects, for printing.
    pub fn namer(&self) -> Namer<'_>
        ensures names { result.names.now ≡ self.now.names }
        ensures objects { result.of_object.now ≡ self.now.of_object }
    {
        Namer {
            names: &self.names,
            of_object: &self.of_object,
        }
    }

    /// Returns how many numbers were given to objects.
    pub fn numbers(&self) -> u32
        ensures numbers { result ≡ length self.now.of_object }
        ensures limit { result ≤ 2 ^ 16 }
    {
        let _ = &self.of_name;
        self.desk.numbers()
    }
}

// Makes a table by name without objects.
fn unnamed(alloc: Global, names: usize) -> Result<Vec<Option<ObjId>>, AllocError>
    ensures { IfOk result (λ table. table.items ≡ replicate names None) }
{
    vec![in alloc; None; names]
}

// Makes a table by name without actions.
fn unwatched(alloc: Global, names: usize) -> Result<Vec<Option<ActionId>>, AllocError>
    ensures { IfOk result (λ table. table.items ≡ replicate names None) }
{
    vec![in alloc; None; names]
}

// Returns the command at a place of a list, if there is one.
fn command_in(commands: &CommandList, at: usize) -> Option<Command>
    ensures at { result ≡ slice_get commands.now at }
    ensures low { IfSome result (λ _. at + 1 < 2 ^ 64) }
{
    match commands.items().get(at) {
        Some(command) => Some(*command),
        None => None,
    }
}
