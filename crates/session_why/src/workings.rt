// The numbers that a value is computed from.
ghost use Rattle.std.specs.Prelude.{◌≡◌, ◌<◌, ◌≤◌, ◌++◌, ◌*ℤ◌, ◌^◌, ◌∷◌, [], codes, length, unsigned_abs, true, Some, All, IsOk, IfOk, OnOk};
ghost use Rattle.desk_terms.specs.declared.kind.Kind.TheVariants.{Composite, Curve, Implied};
ghost use Rattle.desk_terms.specs.Parts.{IsWeight};
ghost use Rattle.desk_model.specs.Fresh.{inputs_by};
ghost use Rattle.desk_model.specs.Links.{is_lazy_at};
ghost use Rattle.desk_model.specs.Market.{kind_at, terms_at};
ghost use Rattle.desk_model.specs.State.{kept_at, last_answer};
ghost use Rattle.desk_model.specs.Uses.{input_at, member_entries};
ghost use Rattle.why_model.specs.Workings.{part_product};
ghost use Rattle.why_model.specs.Answer.{named, node_rates_text, nodes_text, parts_text};
ghost use Rattle.session_why.specs.Lasts.{CanWork, helper_quotes, nodes_in, nodes_with, parts_by, quotes_in, rates_by, workings_in};

use crate::flows::push_flows;
use crate::lines::{
    push_amount, push_head, push_money, push_name, push_point, push_rate, push_weight,
};
use curve_points::CurveNode;
use desk_model::Entry;
use desk_names::ObjId;
use desk_terms::{Helper, Kind, Part, Terms, Value};
use fixed_amount::{Amount, Rate};
use lazy_objects::Desk;
use session_core::Session;
use std::alloc::{AllocError, Global};

// Appends the numbers that the value of an object is computed from, which is neither frozen nor late.
pub(crate) fn push_workings(
    alloc: Global,
    session: &mut Session,
    object: ObjId,
    out: &mut Vec<u8>,
) -> Result<(), AllocError>
    requires lazy { is_lazy_at session.old.state.market object ≡ true }
    requires can { CanWork session.old.state object }
    ensures text { OnOk result (out.new.items ≡ out.old.items ++ workings_in session.old object
        (terms_at session.old.state.market object) (kept_at session.old.state object).last) }
    ensures same { session.new ≡ session.old }
{
    match session.desk().kind(object) {
        Some(Kind::Composite) => push_parts(alloc, session, object, out),
        Some(Kind::Curve) => push_built(alloc, session, object, out),
        Some(Kind::Implied) => push_seen(alloc, session, object, out),
        Some(Kind::Flows) => push_flows(alloc, session, object, out),
        None
        | Some(
            Kind::Today
            | Kind::Quote
            | Kind::Derived
            | Kind::QuoteHandle
            | Kind::CurveHandle
            | Kind::Index
            | Kind::Engine
            | Kind::Stock
            | Kind::Watcher,
        ) => Ok(()),
    }
}

// Appends each part of a composite.
fn push_parts(
    alloc: Global,
    session: &Session,
    object: ObjId,
    out: &mut Vec<u8>,
) -> Result<(), AllocError>
    requires kind { kind_at session.now.state.market object ≡ Some Composite }
    requires can { CanWork session.now.state object }
    ensures { OnOk result (out.new.items ≡ out.old.items ++ workings_in session.now object
        (terms_at session.now.state.market object) (kept_at session.now.state object).last) }
{
    session.shape();
    let Some(Terms::Composite(parts)) = session.desk().terms(object) else {
        return Ok(());
    };
    push_each_part(alloc, session, object, parts.items(), out)
}

fn push_each_part(
    alloc: Global,
    session: &Session,
    object: ObjId,
    parts: &[Part],
    out: &mut Vec<u8>,
) -> Result<(), AllocError>
    requires inputs { IsOk (inputs_by (last_answer session.now.state) (member_entries parts.now)) }
    requires weights { All (λ part. IsWeight part.weight) parts.now }
    ensures { OnOk result (out.new.items ≡ out.old.items ++ parts_by session.now object parts.now
        (inputs_by (last_answer session.now.state) (member_entries parts.now))) }
{
    for part in parts {
        match session.desk().last(part.member) {
            Some(Value::Money(worth)) => push_part(alloc, session, object, part, *worth, out)?,
            Some(Value::Curve(_)) => return Ok(()),
            None => return Ok(()),
        }
    }
    Ok(())
}

// Appends a part of a composite: its weight, its member, the value of that, and the product.
fn push_part(
    alloc: Global,
    session: &Session,
    object: ObjId,
    part: &Part,
    worth: Amount,
    out: &mut Vec<u8>,
) -> Result<(), AllocError>
    requires { IsWeight part.now.weight }
    ensures { OnOk result (out.new.items ≡ out.old.items
        ++ parts_text session.now (named session.now object) (part_product part.now worth ∷ [])) }
{
    push_head(session, object, b" part", out)?;
    push_weight(alloc, part.weight, out)?;
    push_name(session, part.member, out)?;
    push_amount(alloc, worth, out)?;
    push_money(alloc, times(part.weight, worth), out)?;
    out.extend_from_slice(b"\n")
}

// A weight times an amount.
fn times(weight: i64, worth: Amount) -> i128
    requires { unsigned_abs weight ≤ 1000000 }
    ensures value { result ≡ weight *ℤ worth }
    ensures bound { unsigned_abs result ≤ 10 ^ 32 }
{
    weight as i128 * worth.0
}

// Appends each node of a curve that is built, with the quote of its helper and the rate that was read there.
fn push_built(
    alloc: Global,
    session: &mut Session,
    object: ObjId,
    out: &mut Vec<u8>,
) -> Result<(), AllocError>
    requires kind { kind_at session.old.state.market object ≡ Some Curve }
    requires can { CanWork session.old.state object }
    ensures text { OnOk result (out.new.items ≡ out.old.items ++ workings_in session.old object
        (terms_at session.old.state.market object) (kept_at session.old.state object).last) }
    ensures same { session.new ≡ session.old }
{
    session.shape();
    let quotes = quotes_of(alloc, session.desk(), object)?;
    let rates = rates_of(alloc, &mut session.desk, quotes.as_slice())?;
    let nodes = nodes_of(session.desk(), object);
    push_node_rates(
        alloc,
        session,
        object,
        nodes,
        quotes.as_slice(),
        rates.as_slice(),
        out,
    )
}

// The quotes of a curve's helpers, in order.
fn quotes_of(alloc: Global, desk: &Desk, object: ObjId) -> Result<Vec<ObjId>, AllocError>
    requires { kind_at desk.now.market object ≡ Some Curve }
    ensures { IfOk result (λ quotes. quotes.items ≡ quotes_in (terms_at desk.now.market object)) }
{
    let mut quotes = Vec::new(alloc);
    if let Some(Terms::Curve(terms)) = desk.terms(object) {
        push_quotes(terms.helpers.items(), &mut quotes)?;
    }
    Ok(quotes)
}

fn push_quotes(helpers: &[Helper], quotes: &mut Vec<ObjId>) -> Result<(), AllocError>
    ensures { OnOk result (quotes.new.items ≡ quotes.old.items ++ helper_quotes helpers.now) }
{
    for helper in helpers {
        quotes.push(helper.quote)?;
    }
    Ok(())
}

// The rates that quotes give, up to the first that gives none.
fn rates_of(alloc: Global, desk: &mut Desk, quotes: &[ObjId]) -> Result<Vec<Rate>, AllocError>
    requires within { All (λ quote. quote < length desk.old.market.objects) quotes.now }
    ensures rates { IfOk result (λ rates. rates.items ≡ rates_by (input_at desk.old.market) quotes.now) }
    ensures same { desk.new ≡ desk.old }
{
    let mut rates = Vec::new(alloc);
    for quote in quotes {
        match desk.given(*quote)? {
            Entry::Gives(rate) => rates.push(rate)?,
            Entry::Needs(_) => return Ok(rates),
            Entry::Refuses(_cause) => return Ok(rates),
        }
    }
    Ok(rates)
}

// The nodes of the last value of a curve.
fn nodes_of(desk: &Desk, object: ObjId) -> &[CurveNode]
    ensures { result.now ≡ nodes_in (kept_at desk.now object).last }
{
    match desk.last(object) {
        Some(Value::Curve(curve)) => curve.nodes(),
        Some(Value::Money(_)) | None => &[],
    }
}

// Appends nodes with their quotes and rates, as far as there are all three.
fn push_node_rates(
    alloc: Global,
    session: &Session,
    object: ObjId,
    nodes: &[CurveNode],
    quotes: &[ObjId],
    rates: &[Rate],
    out: &mut Vec<u8>,
) -> Result<(), AllocError>
    ensures { OnOk result (out.new.items ≡ out.old.items
        ++ node_rates_text session.now (named session.now object) (nodes_with nodes.now quotes.now rates.now)) }
{
    let mut at: usize = 0;
    while at < nodes.len() && at < quotes.len() && at < rates.len() {
        push_node_rate(
            alloc, session, object, &nodes[at], quotes[at], rates[at], out,
        )?;
        at += 1;
    }
    Ok(())
}

// Appends a node with its quote and the rate that was read there.
fn push_node_rate(
    alloc: Global,
    session: &Session,
    object: ObjId,
    node: &CurveNode,
    quote: ObjId,
    rate: Rate,
    out: &mut Vec<u8>,
) -> Result<(), AllocError>
    ensures { OnOk result (out.new.items ≡ out.old.items
        ++ node_rates_text session.now (named session.now object) (record { node = node.now; quote = quote; rate = rate } ∷ [])) }
{
    push_head(session, object, b" node", out)?;
    push_point(alloc, node, out)?;
    push_name(session, quote, out)?;
    push_rate(alloc, rate, out)?;
    out.extend_from_slice(b"\n")
}

// Appends each node of an implied curve.
fn push_seen(
    alloc: Global,
    session: &Session,
    object: ObjId,
    out: &mut Vec<u8>,
) -> Result<(), AllocError>
    requires kind { kind_at session.now.state.market object ≡ Some Implied }
    requires can { CanWork session.now.state object }
    ensures { OnOk result (out.new.items ≡ out.old.items ++ workings_in session.now object
        (terms_at session.now.state.market object) (kept_at session.now.state object).last) }
{
    push_nodes(
        alloc,
        session,
        object,
        nodes_of(session.desk(), object),
        out,
    )
}

fn push_nodes(
    alloc: Global,
    session: &Session,
    object: ObjId,
    nodes: &[CurveNode],
    out: &mut Vec<u8>,
) -> Result<(), AllocError>
    ensures { OnOk result (out.new.items ≡ out.old.items ++ nodes_text (named session.now object) nodes.now) }
{
    for node in nodes {
        push_node(alloc, session, object, node, out)?;
    }
    Ok(())
}

// Appends a node.
fn push_node(
    alloc: Global,
    session: &Session,
    object: ObjId,
    node: &CurveNode,
    out: &mut Vec<u8>,
) -> Result<(), AllocError>
    ensures { OnOk result (out.new.items ≡ out.old.items ++ nodes_text (named session.now object) (node.now ∷ [])) }
{
    push_head(session, object, b" node", out)?;
    push_point(alloc, node, out)?;
    out.extend_from_slice(b"\n")
}
