// The section of a priced object.
ghost use Rattle.std.specs.Prelude.{◌≡◌, ◌++◌, true, OnOk};
ghost use Rattle.desk_terms.specs.Asked.{Shows};
ghost use Rattle.desk_terms.specs.Reading.{Outcome};
ghost use Rattle.desk_model.specs.Links.{is_lazy_at};
ghost use Rattle.desk_model.specs.Market.{terms_at};
ghost use Rattle.desk_model.specs.Sound.{IsSound};
ghost use Rattle.desk_model.specs.State.{kept_at, least_source};
ghost use Rattle.bump_model.specs.Asking.{ask_of, Asks};
ghost use Rattle.why_model.specs.Answer.{object_lines, source_text};
ghost use Rattle.session_why.specs.Lasts.{behind_in, line_in, HasWorkings};

use crate::asking::ask;
use crate::lines::{push_head, push_name, push_shown};
use crate::objects::word_of;
use crate::workings::push_workings;
use desk_names::ObjId;
use desk_terms::{Asked, Bench, Mark};
use session_core::Session;
use session_rounds::WatchedSession;
use std::alloc::{AllocError, Global};
use watch_rounds::Picker;

// Appends the section of a priced object, which is computed first if it was not yet.
pub(crate) fn push_priced<P: Picker, B: Bench>(
    alloc: Global,
    session: &mut WatchedSession<P>,
    object: ObjId,
    bench: &mut B,
    out: &mut Vec<u8>,
) -> Result<(), AllocError>
    requires lazy { is_lazy_at session.old.standing.state.market object ≡ true }
    requires sound { IsSound (B.calc bench.old) session.old.standing.state }
    ensures text { OnOk result (out.new.items ≡ out.old.items ++ object_lines (B.calc bench.old) session.old.standing object) }
    ensures asks { Asks (ask_of (B.calc bench.old) object session.old.standing.state) result session.new.standing.state
        (B.count bench.old) (B.count bench.new) (B.log bench.old) (B.log bench.new) }
    ensures stays { session.new ≡ record session.old { standing = record session.old.standing { state = session.new.standing.state } } }
    ensures market { session.new.standing.state.market ≡ session.old.standing.state.market }
    ensures sound { IsSound (B.calc bench.old) session.new.standing.state }
    ensures same { B.calc bench.new ≡ B.calc bench.old }
{
    let asked = ask(session, object, bench)?;
    push_line(alloc, &session.session, object, &asked, out)?;
    push_behind(alloc, &mut session.session, object, &asked, out)
}

// Appends the line of a priced object: its kind, its mark, and what it shows.
fn push_line(
    alloc: Global,
    session: &Session,
    object: ObjId,
    asked: &Asked,
    out: &mut Vec<u8>,
) -> Result<(), AllocError>
    requires { is_lazy_at session.now.state.market object ≡ true }
    ensures { (outcome : Outcome) → Shows asked.now.cause (kept_at session.now.state object).last outcome
        → OnOk result (out.new.items ≡ out.old.items
        ++ line_in session.now object (terms_at session.now.state.market object) asked.now.mark outcome) }
{
    let Some(terms) = session.desk().terms(object) else {
        return Ok(());
    };
    push_head(session, object, word_of(terms), out)?;
    out.extend_from_slice(b" ")?;
    out.extend_from_slice(asked.mark.word())?;
    push_shown(
        alloc,
        session,
        &asked.cause,
        session.desk().last(object),
        out,
    )?;
    out.extend_from_slice(b"\n")
}

// Appends the lines after the first of a priced object: none of a frozen one, the source of a late one, and of any other the numbers
// that its value is computed from.
fn push_behind(
    alloc: Global,
    session: &mut Session,
    object: ObjId,
    asked: &Asked,
    out: &mut Vec<u8>,
) -> Result<(), AllocError>
    requires lazy { is_lazy_at session.old.state.market object ≡ true }
    requires inputs { HasWorkings session.old.state object asked.now.mark asked.now.cause }
    ensures text { OnOk result (out.new.items ≡ out.old.items
        ++ behind_in session.old object asked.now.mark asked.now.cause) }
    ensures same { session.new ≡ session.old }
{
    match asked.mark {
        Mark::Frozen => Ok(()),
        Mark::Late => push_source(session, object, out),
        Mark::Fresh | Mark::Held | Mark::Recalc => match asked.cause {
            Some(_) => Ok(()),
            None => push_workings(alloc, session, object, out),
        },
    }
}

// Appends the source that makes an object late.
fn push_source(session: &mut Session, object: ObjId, out: &mut Vec<u8>) -> Result<(), AllocError>
    requires lazy { is_lazy_at session.old.state.market object ≡ true }
    ensures text { OnOk result (out.new.items ≡ out.old.items
        ++ source_text session.old object (least_source session.old.state object)) }
    ensures same { session.new ≡ session.old }
{
    let Some(source) = session.desk.late(object) else {
        return Ok(());
    };
    push_head(session, object, b" source", out)?;
    push_name(session, source, out)?;
    out.extend_from_slice(b"\n")
}
