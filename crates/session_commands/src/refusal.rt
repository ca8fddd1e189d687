// The reasons why a command is refused.
ghost use Rattle.std.specs.Prelude.{◌≡◌};
ghost use Rattle.session_commands.specs.Refusal.{refusal_word};

use desk_names::{NameId, ObjId};
use fixed_amount::Rate;

/// Why a session refuses a command. A refused command changes nothing.
#[derive(Clone, Copy, Debug, PartialEq, Eq)]
pub enum Refusal {
    /// No live object has the name.
    Unknown(NameId),
    /// A live object has the new name.
    Taken(NameId),
    /// The object is of a kind that the command does not take.
    Kind(NameId),
    /// The target or new member is the holder, or depends on it.
    Cycle,
    /// A live object, watchers aside, depends on the one to drop: the least such object.
    InUse(ObjId),
    /// A fixing is stored for that day, with this rate.
    FixingExists(Rate),
    /// 4,096 objects are live, or 65,536 numbers were given.
    TooMany,
    /// The watcher is registered with the object.
    AlreadyRegistered,
    /// The watcher is not registered with the object.
    NotRegistered,
    /// The object to recalculate is late: the least deferred source that makes it so.
    Deferred(ObjId),
}

impl Refusal {
    /// Returns the word of the refusal, without the names in it.
    pub fn word(&self) -> &'static [u8]
        ensures { result.now ≡ refusal_word self.now }
    {
        match self {
            Refusal::Unknown(_) => b"unknown",
            Refusal::Taken(_) => b"taken",
            Refusal::Kind(_) => b"kind",
            Refusal::Cycle => b"cycle",
            Refusal::InUse(_) => b"inuse",
            Refusal::FixingExists(_) => b"exists",
            Refusal::TooMany => b"toomany",
            Refusal::AlreadyRegistered => b"registered",
            Refusal::NotRegistered => b"notregistered",
            Refusal::Deferred(_) => b"deferred",
        }
    }
}
