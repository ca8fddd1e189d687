// The section of one object.
ghost use Rattle.std.specs.Prelude.{◌≡◌, ◌++◌, ◌∷◌, [], codes, true, false, Some, OnOk};
ghost use Rattle.desk_terms.specs.Reading.{Calc};
ghost use Rattle.desk_model.specs.Links.{IsWhole, is_lazy_at};
ghost use Rattle.desk_model.specs.Market.{is_forwarder, kind_at, without};
ghost use Rattle.desk_model.specs.Sound.{IsSound};
ghost use Rattle.desk_terms.specs.declared.kind.Kind.TheVariants.{Quote, Today};
ghost use Rattle.bump_model.specs.Asking.{Asks};
ghost use Rattle.why_model.specs.Answer.{each_named, object_lines, rate_text, terms_word};
ghost use Rattle.session_why.specs.Computed.{ask_if};

use crate::lines::{push_day, push_head, push_name, push_rate};
use crate::listing::is_priced;
use crate::priced::push_priced;
use desk_names::ObjId;
use desk_terms::{Bench, Kind, Terms};
use fixed_amount::Rate;
use object_store::TODAY;
use session_core::Session;
use session_graph::subjects_of;
use session_rounds::WatchedSession;
use std::alloc::{AllocError, Global};
use watch_rounds::Picker;

// Appends the section of an object, which is computed first if it was not yet.
pub(crate) fn push_object<P: Picker, B: Bench>(
    alloc: Global,
    session: &mut WatchedSession<P>,
    object: ObjId,
    bench: &mut B,
    out: &mut Vec<u8>,
) -> Result<(), AllocError>
    requires sound { IsSound (B.calc bench.old) session.old.standing.state }
    ensures text { OnOk result (out.new.items ≡ out.old.items ++ object_lines (B.calc bench.old) session.old.standing object) }
    ensures asks { Asks (ask_if (B.calc bench.old) object session.old.standing.state) result session.new.standing.state
        (B.count bench.old) (B.count bench.new) (B.log bench.old) (B.log bench.new) }
    ensures stays { session.new ≡ record session.old { standing = record session.old.standing { state = session.new.standing.state } } }
    ensures market { session.new.standing.state.market ≡ session.old.standing.state.market }
    ensures sound { IsSound (B.calc bench.old) session.new.standing.state }
    ensures same { B.calc bench.new ≡ B.calc bench.old }
    ensures whole { IsWhole session.old.standing.state }
{
    session.shape();
    if is_priced(session.session().desk(), object) {
        push_priced(alloc, session, object, bench, out)
    } else {
        push_plain(alloc, session.session(), object, out)
    }
}

// Appends the section of an object that is not priced.
fn push_plain(
    alloc: Global,
    session: &Session,
    object: ObjId,
    out: &mut Vec<u8>,
) -> Result<(), AllocError>
    requires { is_lazy_at session.now.state.market object ≡ false }
    ensures { (calc : Calc) → OnOk result (out.new.items ≡ out.old.items ++ object_lines calc session.now object) }
{
    match session.desk().kind(object) {
        None => Ok(()),
        Some(Kind::Watcher) => Ok(()),
        Some(Kind::Today) => push_today(alloc, session, object, out),
        Some(Kind::Quote) => push_quote(alloc, session, object, out),
        Some(
            Kind::Derived
            | Kind::QuoteHandle
            | Kind::CurveHandle
            | Kind::Index
            | Kind::Engine
            | Kind::Curve
            | Kind::Implied
            | Kind::Stock
            | Kind::Composite
            | Kind::Flows,
        ) => push_passing(alloc, session, object, out),
    }
}

// Appends the evaluation date.
fn push_today(
    alloc: Global,
    session: &Session,
    object: ObjId,
    out: &mut Vec<u8>,
) -> Result<(), AllocError>
    requires { kind_at session.now.state.market object ≡ Some Today }
    ensures { (calc : Calc) → OnOk result (out.new.items ≡ out.old.items ++ object_lines calc session.now object) }
{
    push_head(session, object, b" day", out)?;
    push_day(alloc, session.desk().today(), out)?;
    out.extend_from_slice(b"\n")
}

// Appends a quote with its rate.
fn push_quote(
    alloc: Global,
    session: &Session,
    object: ObjId,
    out: &mut Vec<u8>,
) -> Result<(), AllocError>
    requires { kind_at session.now.state.market object ≡ Some Quote }
    ensures { (calc : Calc) → OnOk result (out.new.items ≡ out.old.items ++ object_lines calc session.now object) }
{
    push_head(session, object, b" quote", out)?;
    push_value(alloc, session.desk().quote(object), out)?;
    out.extend_from_slice(b"\n")
}

// Appends a space and the rate of a quote.
fn push_value(alloc: Global, rate: Option<Rate>, out: &mut Vec<u8>) -> Result<(), AllocError>
    ensures { OnOk result (out.new.items ≡ out.old.items ++ codes " " ++ rate_text rate) }
{
    match rate {
        None => out.extend_from_slice(b" unset"),
        Some(rate) => push_rate(alloc, rate, out),
    }
}

// Appends an object that passes on what others give, with what it observes but the evaluation date.
fn push_passing(
    alloc: Global,
    session: &Session,
    object: ObjId,
    out: &mut Vec<u8>,
) -> Result<(), AllocError>
    requires { is_forwarder session.now.state.market object ≡ true }
    ensures { (calc : Calc) → OnOk result (out.new.items ≡ out.old.items ++ object_lines calc session.now object) }
{
    let Some(terms) = session.desk().terms(object) else {
        return Ok(());
    };
    let subjects = subjects_of(alloc, terms)?;
    push_head(session, object, word_of(terms), out)?;
    push_subjects(session, subjects.as_slice(), out)?;
    out.extend_from_slice(b"\n")
}

// Appends the names of objects, but that of the evaluation date.
fn push_subjects(session: &Session, subjects: &[ObjId], out: &mut Vec<u8>) -> Result<(), AllocError>
    ensures { OnOk result (out.new.items ≡ out.old.items ++ each_named session.now (without 0 subjects.now)) }
{
    for subject in subjects {
        push_subject(session, *subject, out)?;
    }
    Ok(())
}

// Appends the name of an object, unless it is the evaluation date.
fn push_subject(session: &Session, subject: ObjId, out: &mut Vec<u8>) -> Result<(), AllocError>
    ensures { OnOk result (out.new.items ≡ out.old.items ++ each_named session.now (without 0 (subject ∷ []))) }
{
    if subject != TODAY {
        push_name(session, subject, out)?;
    }
    Ok(())
}

// Returns a space and the word of an object with these terms.
pub(crate) fn word_of(terms: &Terms) -> &'static [u8]
    ensures { result.now ≡ codes " " ++ terms_word terms.now }
{
    match terms {
        Terms::Quote(_) => b" quote",
        Terms::Derived { minus: true, .. } => b" difference",
        Terms::Derived { minus: false, .. } => b" sum",
        Terms::Handle { .. } => b" handle",
        Terms::Index(..) => b" index",
        Terms::Engine { .. } => b" engine",
        Terms::Curve(_) => b" curve",
        Terms::Implied { .. } => b" implied",
        Terms::Stock { .. } => b" stock",
        Terms::Composite(_) => b" composite",
        Terms::Flows(..) => b" flows",
    }
}
