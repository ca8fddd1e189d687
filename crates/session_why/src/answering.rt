// Explains the value of an object by its name.
ghost use Rattle.std.specs.Prelude.{◌≡◌, ◌++◌, [], true, IfOk, OnOk};
ghost use Rattle.desk_model.specs.Links.{is_lazy_at};
ghost use Rattle.desk_model.specs.Sound.{IsSound};
ghost use Rattle.session_model.specs.declared.act.How.TheVariants.{Ask};
ghost use Rattle.session_model.specs.Pricing.{asking};
ghost use Rattle.session_model.specs.Turn.{line_of};
ghost use Rattle.bump_model.specs.Asking.{ask_of, Asks};
ghost use Rattle.why_model.specs.Answer.{lines_of_each, why_text};
ghost use Rattle.why_model.specs.Listing.{listing};
ghost use Rattle.session_why.specs.Computed.{ask_each, asks_of, why_asking};

use crate::asking::ask;
use crate::lines::push_refused;
use crate::listing::list_all;
use crate::objects::push_object;
use desk_names::{NameId, ObjId};
use desk_terms::Bench;
use indexmap::IndexSet;
use price_report::asked_line;
use session_rounds::WatchedSession;
use std::alloc::{AllocError, Global};
use watch_rounds::Picker;

/// Explains the value of an object of a session: returns the line of an ask of it, and then a section for each object that its value
/// depends on, or one line that says why it is refused. Objects that are out of date are computed first. That changes no later line
/// of the session. The cost grows with what is written and computed.
///
/// # Errors
///
/// `AllocError` where memory runs out. Then values that were computed stay.
pub fn why<P: Picker, B: Bench>(
    alloc: Global,
    session: &mut WatchedSession<P>,
    text: &[u8],
    bench: &mut B,
) -> Result<Vec<u8>, AllocError>
    requires sound { IsSound (B.calc bench.old) session.old.standing.state }
    ensures text { IfOk result (λ answer. answer.items ≡ why_text (B.calc bench.old) session.old.standing text.now) }
    // These computations were made, or a prefix of them where memory ran out.
    ensures asks { Asks (why_asking (B.calc bench.old) session.old.standing text.now) result session.new.standing.state
        (B.count bench.old) (B.count bench.new) (B.log bench.old) (B.log bench.new) }
    // Nothing but the values of objects has changed then.
    ensures stays { session.new ≡ record session.old { standing = record session.old.standing { state = session.new.standing.state } } }
    ensures market { session.new.standing.state.market ≡ session.old.standing.state.market }
    ensures sound { IsSound (B.calc bench.old) session.new.standing.state }
    ensures same { B.calc bench.new ≡ B.calc bench.old }
{
    let mut answer = Vec::new(alloc);
    push_found(alloc, session, text, bench, &mut answer)?;
    Ok(answer)
}

// Appends the explanation for a name.
fn push_found<P: Picker, B: Bench>(
    alloc: Global,
    session: &mut WatchedSession<P>,
    text: &[u8],
    bench: &mut B,
    out: &mut Vec<u8>,
) -> Result<(), AllocError>
    requires sound { IsSound (B.calc bench.old) session.old.standing.state }
    ensures text { OnOk result (out.new.items ≡ out.old.items ++ why_text (B.calc bench.old) session.old.standing text.now) }
    ensures asks { Asks (why_asking (B.calc bench.old) session.old.standing text.now) result session.new.standing.state
        (B.count bench.old) (B.count bench.new) (B.log bench.old) (B.log bench.new) }
    ensures stays { session.new ≡ record session.old { standing = record session.old.standing { state = session.new.standing.state } } }
    ensures market { session.new.standing.state.market ≡ session.old.standing.state.market }
    ensures sound { IsSound (B.calc bench.old) session.new.standing.state }
    ensures same { B.calc bench.new ≡ B.calc bench.old }
{
    match session.session().names().find(text) {
        None => push_refused(b"unknown", text, out),
        Some(name) => match session.session().priced(name) {
            Ok(object) => push_answer(alloc, session, name, object, bench, out),
            Err(refusal) => push_refused(refusal.word(), text, out),
        },
    }
}

// Appends the explanation for the object of this name.
fn push_answer<P: Picker, B: Bench>(
    alloc: Global,
    session: &mut WatchedSession<P>,
    name: NameId,
    object: ObjId,
    bench: &mut B,
    out: &mut Vec<u8>,
) -> Result<(), AllocError>
    requires lazy { is_lazy_at session.old.standing.state.market object ≡ true }
    requires sound { IsSound (B.calc bench.old) session.old.standing.state }
    ensures text { OnOk result (out.new.items ≡ out.old.items
        ++ line_of session.old.standing name object Ask (asking (B.calc bench.old) object session.old.standing.state)
        ++ lines_of_each (B.calc bench.old) session.old.standing (listing session.old.standing.state object)) }
    ensures asks { Asks (asks_of (B.calc bench.old) object session.old.standing.state) result session.new.standing.state
        (B.count bench.old) (B.count bench.new) (B.log bench.old) (B.log bench.new) }
    ensures stays { session.new ≡ record session.old { standing = record session.old.standing { state = session.new.standing.state } } }
    ensures market { session.new.standing.state.market ≡ session.old.standing.state.market }
    ensures sound { IsSound (B.calc bench.old) session.new.standing.state }
    ensures same { B.calc bench.new ≡ B.calc bench.old }
{
    let mut list = IndexSet::new(alloc);
    push_listed(alloc, session, name, object, bench, &mut list, out)
}

// Does the same with room for the list. The list is borrowed, since an owner drops it on each exit.
fn push_listed<P: Picker, B: Bench>(
    alloc: Global,
    session: &mut WatchedSession<P>,
    name: NameId,
    object: ObjId,
    bench: &mut B,
    list: &mut IndexSet<u32>,
    out: &mut Vec<u8>,
) -> Result<(), AllocError>
    requires lazy { is_lazy_at session.old.standing.state.market object ≡ true }
    requires sound { IsSound (B.calc bench.old) session.old.standing.state }
    requires empty { list.old.keys ≡ [] }
    ensures text { OnOk result (out.new.items ≡ out.old.items
        ++ line_of session.old.standing name object Ask (asking (B.calc bench.old) object session.old.standing.state)
        ++ lines_of_each (B.calc bench.old) session.old.standing (listing session.old.standing.state object)) }
    ensures asks { Asks (asks_of (B.calc bench.old) object session.old.standing.state) result session.new.standing.state
        (B.count bench.old) (B.count bench.new) (B.log bench.old) (B.log bench.new) }
    ensures stays { session.new ≡ record session.old { standing = record session.old.standing { state = session.new.standing.state } } }
    ensures market { session.new.standing.state.market ≡ session.old.standing.state.market }
    ensures sound { IsSound (B.calc bench.old) session.new.standing.state }
    ensures same { B.calc bench.new ≡ B.calc bench.old }
{
    session.shape();
    list_all(alloc, &mut session.session, object, list)?;
    push_asked(alloc, session, name, object, bench, out)?;
    push_each(alloc, session, list.as_slice(), bench, out)
}

// Asks an object and appends its line.
fn push_asked<P: Picker, B: Bench>(
    alloc: Global,
    session: &mut WatchedSession<P>,
    name: NameId,
    object: ObjId,
    bench: &mut B,
    out: &mut Vec<u8>,
) -> Result<(), AllocError>
    requires lazy { is_lazy_at session.old.standing.state.market object ≡ true }
    requires sound { IsSound (B.calc bench.old) session.old.standing.state }
    ensures text { OnOk result (out.new.items ≡ out.old.items
        ++ line_of session.old.standing name object Ask (asking (B.calc bench.old) object session.old.standing.state)) }
    ensures asks { Asks (ask_of (B.calc bench.old) object session.old.standing.state) result session.new.standing.state
        (B.count bench.old) (B.count bench.new) (B.log bench.old) (B.log bench.new) }
    ensures stays { session.new ≡ record session.old { standing = record session.old.standing { state = session.new.standing.state } } }
    ensures market { session.new.standing.state.market ≡ session.old.standing.state.market }
    ensures sound { IsSound (B.calc bench.old) session.new.standing.state }
    ensures same { B.calc bench.new ≡ B.calc bench.old }
{
    let asked = ask(session, object, bench)?;
    let desk = session.session().desk();
    asked_line(
        alloc,
        name,
        &asked,
        desk.last(object),
        &session.session().namer(),
        out,
    )
}

// Appends the section of each of these objects.
fn push_each<P: Picker, B: Bench>(
    alloc: Global,
    session: &mut WatchedSession<P>,
    list: &[u32],
    bench: &mut B,
    out: &mut Vec<u8>,
) -> Result<(), AllocError>
    requires sound { IsSound (B.calc bench.old) session.old.standing.state }
    ensures text { OnOk result (out.new.items ≡ out.old.items ++ lines_of_each (B.calc bench.old) session.old.standing list.now) }
    ensures asks { Asks (ask_each (B.calc bench.old) list.now session.old.standing.state) result session.new.standing.state
        (B.count bench.old) (B.count bench.new) (B.log bench.old) (B.log bench.new) }
    ensures stays { session.new ≡ record session.old { standing = record session.old.standing { state = session.new.standing.state } } }
    ensures market { session.new.standing.state.market ≡ session.old.standing.state.market }
    ensures sound { IsSound (B.calc bench.old) session.new.standing.state }
    ensures same { B.calc bench.new ≡ B.calc bench.old }
{
    for number in list {
        push_object(alloc, session, ObjId(*number), bench, out)?;
    }
    Ok(())
}
