// Rows of steps, `;` between them, each with what it answers: a round over the watchers of a session. A session is an
// order, and how many names and watchers have room.
//
//     told W N due|first|again    a notice to watcher W of name N
//     gone W                      watcher W is due no more
//     next W|none                 who runs next
//     due W W ..                  the due watchers
//     grow N W                    room for so many names and watchers
ghost use Rattle.std.specs.Prelude.{◌≡◌};
ghost use Rattle.std.specs.List.{list_all};
ghost use Rattle.graph_vectors.specs.Watched.{HasRoom, is_apart};

use crate::words::{name_of, notice_of, order_of, watcher_of};
use desk_names::{NameId, ObjId};
use std::alloc::Global;
use std::collections::VecDeque;
use watch_rounds::{DueWatcher, Order, Rounds};

/// The rounds of a session, its order, and how many names and watchers have room.
#[derive(Drop)]
pub(crate) struct Watched {
    rounds: Rounds,
    order: Order,
    names: u32,
    watchers: u32,
}

impl Watched {
    /// Room for none.
    pub(crate) fn new(alloc: Global) -> Watched
        ensures { HasRoom result }
    {
        Watched {
            rounds: Rounds::new(alloc),
            order: Order::First,
            names: 0,
            watchers: 0,
        }
    }

    /// Begins a session `order names watchers` anew. None where it is none, or where memory is wanting.
    pub(crate) fn begin(&mut self, alloc: Global, session: &str) -> Option<bool>
        requires { HasRoom self.old }
        ensures { HasRoom self.new }
    {
        let mut words = session.split(' ');
        let order = order_of(words.next()?)?;
        let names = words.next()?;
        let watchers = words.next()?;
        *self = Watched::new(alloc);
        self.order = order;
        self.grow(names, watchers)
    }

    /// Whether each step of a round agrees. None where one is no step, or where memory is wanting.
    pub(crate) fn round_agrees(&mut self, row: &str) -> Option<bool>
        requires { HasRoom self.old }
        ensures { HasRoom self.new }
    {
        self.rounds.begin();
        let mut agree = true;
        for step in row.split(';') {
            agree = self.step_agrees(step.trim())? && agree;
        }
        Some(agree)
    }

    // Whether a step agrees.
    fn step_agrees(&mut self, step: &str) -> Option<bool>
        requires { HasRoom self.old }
        ensures { HasRoom self.new }
    {
        let mut words = step.split(' ');
        let verb = words.next()?;
        if verb == "due" {
            return self.due_agrees(step);
        }
        let first = words.next()?;
        match verb {
            "next" => Some(self.next_agrees(first)),
            "gone" => self.gone(watcher_of(first)?),
            "grow" => self.grow(first, words.next()?),
            "told" => {
                let name = name_of(words.next()?)?;
                self.told_agrees(watcher_of(first)?, name, words.next()?)
            }
            _ => None,
        }
    }

    // Room for so many names and watchers.
    fn grow(&mut self, names: &str, watchers: &str) -> Option<bool>
        requires { HasRoom self.old }
        ensures { HasRoom self.new }
    {
        let names: u32 = names.parse().ok()?;
        let watchers: u32 = watchers.parse().ok()?;
        self.rounds.grow(names, watchers).ok()?;
        self.names = self.names.max(names);
        self.watchers = self.watchers.max(watchers);
        Some(true)
    }

    // Whether a notice does what it should. None where the watcher or the name has no room, or the name is another's.
    fn told_agrees(&mut self, watcher: ObjId, name: NameId, wanted: &str) -> Option<bool>
        requires { HasRoom self.old }
        ensures { HasRoom self.new }
    {
        let wanted = notice_of(wanted)?;
        if watcher.0 >= self.watchers || name.0 >= self.names {
            return None;
        }
        if !may_tell(self.rounds.due(), watcher, name) {
            return None;
        }
        Some(self.rounds.told(watcher, name) == wanted)
    }

    // The watcher is due no more. None where it has no room.
    fn gone(&mut self, watcher: ObjId) -> Option<bool>
        requires { HasRoom self.old }
        ensures { HasRoom self.new }
    {
        if watcher.0 >= self.watchers {
            return None;
        }
        self.rounds.gone(watcher);
        Some(true)
    }

    // Whether the watcher that runs next is this one, or there is none.
    fn next_agrees(&mut self, wanted: &str) -> bool
        requires { HasRoom self.old }
        ensures { HasRoom self.new }
    {
        let next = self.rounds.next_due(&mut self.order);
        if wanted == "none" {
            return next == None;
        }
        next == watcher_of(wanted) && next != None
    }

    // Whether these are the due watchers, each after the word `due`.
    fn due_agrees(&self, step: &str) -> Option<bool> {
        let mut words = step.split(' ');
        words.next()?;
        for entry in self.rounds.due().iter() {
            if watcher_of(words.next()?)? != entry.watcher {
                return Some(false);
            }
        }
        Some(words.next().is_none())
    }
}

// Whether no other due watcher has the name, and this one no other name.
fn may_tell(due: &VecDeque<DueWatcher>, watcher: ObjId, name: NameId) -> bool
    ensures { result ≡ list_all (is_apart watcher name) due.now.items }
{
    due.iter().all(|one| is_apart(*one, watcher, name))
}

// Whether a due watcher is this one by this name, or another by another.
fn is_apart(one: DueWatcher, watcher: ObjId, name: NameId) -> bool
    ensures { result ≡ is_apart watcher name one }
{
    if one.watcher == watcher {
        one.name == name
    } else {
        one.name != name
    }
}
