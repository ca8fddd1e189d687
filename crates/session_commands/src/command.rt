// The commands of a session.
ghost use Rattle.std.specs.Prelude.{◌≡◌};
ghost use Rattle.session_commands.specs.Parts.{command_word};

use crate::parts::Parts;
use day_number::Day;
use desk_names::{ActionId, NameId};
use fixed_amount::Rate;

/// A command: a variant for each first word of the language, with its arguments as fields in order.
#[derive(Clone, Copy, Debug, PartialEq, Eq)]
pub enum Command {
    /// `quote N V`: makes a quote with this value, or without one where V is `unset`.
    Quote(NameId, Option<Rate>),
    /// `sum N A B`: makes the sum of two quote inputs.
    Sum(NameId, NameId, NameId),
    /// `difference N A B`: makes the difference of two quote inputs.
    Difference(NameId, NameId, NameId),
    /// `handle N quote` or `handle N curve`: makes an empty handle; true for a curve.
    Handle(NameId, bool),
    /// `stock N Q`: makes a stock on a quote input.
    Stock(NameId, NameId),
    /// `composite N`: makes a composite without members.
    Composite(NameId),
    /// `member K I W`: sets the weight of an instrument in a composite. 0 removes it.
    Member(NameId, NameId, i64),
    /// `set Q V`: sets the value of a quote.
    Set(NameId, Rate),
    /// `unset Q`: removes the value of a quote.
    Unset(NameId),
    /// `link H T`: links a handle to a target.
    Link(NameId, NameId),
    /// `unlink H`: removes the target of a handle.
    Unlink(NameId),
    /// `engine I E` or `engine I none`: sets or removes the engine of an instrument.
    Engine(NameId, Option<NameId>),
    /// `today D`: sets the evaluation date.
    Today(Day),
    /// `fixing X D R`: stores a fixing of an index.
    Fixing(NameId, Day, Rate),
    /// `freeze O`.
    Freeze(NameId),
    /// `thaw O`.
    Thaw(NameId),
    /// `recalc O`.
    Recalc(NameId),
    /// `forward O off` or `forward O on`: sets whether a lazy object always forwards notifications.
    Forward(NameId, bool),
    /// `defer`.
    Defer,
    /// `resume`.
    Resume,
    /// `watch W A`: makes a watcher with an action.
    Watch(NameId, ActionId),
    /// `register W O`: registers a watcher with an object.
    Register(NameId, NameId),
    /// `unregister W O`.
    Unregister(NameId, NameId),
    /// `drop N`.
    Drop(NameId),
    /// `ask O`.
    Ask(NameId),
    /// `df C D`: asks a curve for its discount factor on a day.
    Df(NameId, Day),
}

impl Command {
    /// Returns the first word of the command.
    pub fn word(&self) -> &'static [u8]
        ensures { result.now ≡ command_word self.now }
    {
        Parts::of(*self).verb.row().0
    }
}
