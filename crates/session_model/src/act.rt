// What a command is once its names are looked up.
use day_number::Day;
use desk_names::{NameId, ObjId};
use desk_terms::Terms;
use fixed_amount::Rate;
use session_commands::ActionId;

/// A command that is not refused, its objects found.
#[derive(Drop)]
pub enum Act {
    /// Makes an object that has this name and these terms.
    Make(NameId, Terms),
    /// Makes a watcher that has this name and this action, and is registered with nothing.
    Watch(NameId, ActionId),
    /// Changes what is there.
    Quiet(Change),
    /// Puts something more beside what is there.
    Grow(Growth),
    /// Prices a lazy object by its name, and writes its line.
    Price(NameId, ObjId, How),
}

/// A change of what is there: it computes nothing, writes no line and gives no name.
#[derive(Clone, Copy)]
pub enum Change {
    /// Gives a quote a value in units of 10^-9, or takes it away.
    Set(ObjId, Option<Rate>),
    /// Gives a handle a target, or takes it away.
    Link(ObjId, Option<ObjId>),
    /// Gives a bond, swap or forward rate agreement an engine, or takes it away.
    Engine(ObjId, Option<ObjId>),
    /// Moves the evaluation date.
    Today(Day),
    /// Freezes a lazy object: from then on it answers its last value.
    Freeze(ObjId),
    /// Ends that, and tells.
    Thaw(ObjId),
    /// Lets a lazy object pass each notice on, or only those that reach it while its value is current.
    Forward(ObjId, bool),
    /// Holds notices back from then on.
    Defer,
    /// Gives all notices that are held back, and holds none back from then on.
    Resume,
    /// Registers a watcher with an object no more: the watcher, the object.
    Unregister(ObjId, ObjId),
    /// Takes an object out.
    Drop(ObjId),
}

/// A change that is stored beside what is there, for which memory may be wanting. It computes nothing, writes no line and
/// gives no name.
#[derive(Clone, Copy)]
pub enum Growth {
    /// Gives a member a weight in a composite: the composite, the member, the weight. A weight of 0 takes the member
    /// out.
    Member(ObjId, ObjId, i64),
    /// Stores a rate of an index, in units of 10^-9, for a day that has none.
    Fixing(ObjId, Day, Rate),
    /// Registers a watcher with an object: the watcher, the object.
    Register(ObjId, ObjId),
}

/// How a lazy object is priced.
#[derive(Clone, Copy)]
pub enum How {
    /// It is asked.
    Ask,
    /// A curve or an implied curve is asked for its discount factor at a day.
    Df(Day),
    /// It is computed, whatever its flags say.
    Recalc,
}
