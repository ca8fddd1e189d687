// Adds names to a session.
ghost use Rattle.std.specs.Prelude.{◌≡◌, ◌<◌, ◌+◌, ◌++◌, ◌∷◌, [], false, length, drop, slice_index_or, OnOk, OnErr};
ghost use Rattle.desk_names.specs.Name.{IsName};
ghost use Rattle.desk_names.specs.Names.{has_text, most_names, IsNames};
ghost use Rattle.script_words.specs.Given.{Grows};
ghost use Rattle.session_model.specs.Grown.{learn_in};
ghost use Rattle.live_model.specs.Live.{learnt};
ghost use Rattle.live_session.specs.Standing.{IsCopy};
ghost use Rattle.live_session.specs.Saying.{HasLearnt};

use desk_names::{NameFault, NameId, Names};
use session_rounds::WatchedSession;
use std::alloc::AllocError;
use watch_rounds::Picker;

// Adds the names that follow those of the session, in order.
pub(crate) fn learn<P: Picker>(
    session: &mut WatchedSession<P>,
    names: &Names,
) -> Result<(), AllocError>
    requires more { Grows session.old.standing.names names.now }
    ensures learnt { OnOk result (session.new ≡ learnt (drop (length session.old.standing.names) names.now) session.old) }
    ensures names { OnOk result (session.new.standing.names ≡ names.now) }
    ensures some { HasLearnt P (drop (length session.old.standing.names) names.now) session.old session.new }
    ensures kept { IsCopy names.now session.new.standing.names }
{
    while session.session().names().len() < names.len() {
        learn_next(session, names)?;
    }
    Ok(())
}

// Adds the first name that follows those of the session.
fn learn_next<P: Picker>(session: &mut WatchedSession<P>, names: &Names) -> Result<(), AllocError>
    requires more { Grows session.old.standing.names names.now }
    requires left { length session.old.standing.names < length names.now }
    requires names { IsNames names.now }
    ensures ok { OnOk result (session.new ≡ learn_in (slice_index_or names.now (length session.old.standing.names) []) session.old) }
    ensures err { OnErr result (session.new ≡ session.old) }
{
    let next = NameId(session.session().names().len());
    match session.intern(names.text(next)) {
        Ok(_) => Ok(()),
        Err(NameFault::NoMemory) => Err(AllocError),
        // The session lacks the name, and has room for it.
        Err(NameFault::Form) => unreachable!(),
        Err(NameFault::Full) => unreachable!(),
    }
}

// Appends the last of names that are one more.
pub(crate) fn add_next(names: &mut Names, more: &Names) -> Result<(), AllocError>
    requires more { Grows names.old more.now }
    requires one { length more.now ≡ length names.old + 1 }
    ensures ok { OnOk result (names.new ≡ more.now) }
    ensures err { OnErr result (names.new ≡ names.old) }
{
    let last = NameId(more.len() - 1);
    add_new(names, more.text(last))
}

// Appends a new name, for which there is room.
pub(crate) fn add_new(names: &mut Names, text: &[u8]) -> Result<(), AllocError>
    requires named { IsName text.now }
    requires new { has_text names.old text.now ≡ false }
    requires room { length names.old < most_names }
    ensures ok { OnOk result (names.new ≡ names.old ++ text.now ∷ []) }
    ensures err { OnErr result (names.new ≡ names.old) }
{
    match names.intern(text) {
        Ok(_) => Ok(()),
        Err(NameFault::NoMemory) => Err(AllocError),
        // The text is a name, and there is room.
        Err(NameFault::Form) => unreachable!(),
        Err(NameFault::Full) => unreachable!(),
    }
}
