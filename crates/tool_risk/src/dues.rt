// What an instrument pays until the next business day, of what its price counts today.
ghost use Rattle.std.specs.Prelude.{◌≡◌, ◌≤◌, Some, Ok, true, length, IsSome, IfOk, option_copied};
ghost use Rattle.std.specs.List.{All};
ghost use Rattle.jiff_core.specs.Calendar.{IsWithin};
ghost use Rattle.flow_terms.specs.Ranges.{AreFlowsInRange};
ghost use Rattle.flow_terms.specs.declared.limits.TheConstants.{MOST_AMOUNT, MOST_FLOWS};
ghost use Rattle.desk_terms.specs.declared.kind.Wanted.TheVariants.{Member};
ghost use Rattle.desk_terms.specs.Parts.{ArePartsInRange};
ghost use Rattle.desk_terms.specs.Reading.{index_reading};
ghost use Rattle.desk_model.specs.Links.{serves_as, IsRanged};
ghost use Rattle.desk_model.specs.Uses.{index_at, index_in};
ghost use Rattle.cash_flow_legs.specs.Amount.{views_of};
ghost use Rattle.cash_flow_legs.specs.Live.{needs_curve};
ghost use Rattle.tool_risk.specs.Dues.{span_in, settled, money_of, paid_until, due_over, due_on, due_named, flows_due, member_due, weighted, is_member, due_in, due_of, due_beneath, paid};

use crate::given::{GivenCurve, curve_by};
use crate::sums::{paid_until, settled, weighted};
use cash_flow_legs::{FlowFault, flows};
use curve_points::CurveValue;
use day_number::Day;
use desk_names::ObjId;
use desk_terms::{Cause, Kind, Terms, Wanted};
use fixed_amount::Amount;
use flow_terms::{FlowTerms, IndexUse, expired, needs_forecast};
use lazy_objects::Desk;
use std::alloc::{AllocError, Global};

// The day until which payments count, and the curves that engines and indexes give today and on that day.
#[derive(Clone, Copy)]
pub(crate) struct Span<'a> {
    pub(crate) day: Day,
    pub(crate) today: &'a [GivenCurve],
    pub(crate) later: &'a [GivenCurve],
}

// What an instrument pays.
pub(crate) fn paid(
    alloc: Global,
    desk: &mut Desk,
    object: ObjId,
    span: &Span<'_>,
) -> Result<Result<Amount, Cause>, AllocError>
    ensures due { IfOk result (λ due. due ≡ paid desk.old.market object (span_in span.now)) }
    ensures same { desk.new ≡ desk.old }
{
    let mut dues = Vec::new(alloc);
    for number in 0..object.0 {
        let due = due_beneath(alloc, desk, object, ObjId(number), span, dues.as_slice())?;
        dues.push(due)?;
    }
    due_of(alloc, desk, object, span, dues.as_slice())
}

// What an object beneath an instrument pays, by what those before it do; nothing where it is none.
fn due_beneath(
    alloc: Global,
    desk: &mut Desk,
    above: ObjId,
    object: ObjId,
    span: &Span<'_>,
    before: &[Result<Amount, Cause>],
) -> Result<Result<Amount, Cause>, AllocError>
    ensures due { IfOk result (λ due. due ≡ due_beneath desk.old.market above object (span_in span.now) before.now) }
    ensures same { desk.new ≡ desk.old }
{
    if is_member(desk, above, object) {
        due_of(alloc, desk, object, span, before)
    } else {
        Ok(Ok(Amount(0)))
    }
}

// Whether an object is an instrument beneath another.
fn is_member(desk: &mut Desk, above: ObjId, object: ObjId) -> bool
    ensures answer { result ≡ is_member desk.old.market above object }
    ensures same { desk.new ≡ desk.old }
{
    serves(desk.kind(object)) && desk.reaches(above, object)
}

fn serves(kind: Option<Kind>) -> bool
    ensures { result ≡ serves_as kind Member }
{
    match kind {
        None => false,
        Some(kind) => kind.serves(Wanted::Member),
    }
}

// What an object pays, by what those before it do.
fn due_of(
    alloc: Global,
    desk: &Desk,
    object: ObjId,
    span: &Span<'_>,
    before: &[Result<Amount, Cause>],
) -> Result<Result<Amount, Cause>, AllocError>
    ensures { IfOk result (λ due. due ≡ due_of desk.now.market object (span_in span.now) before.now) }
{
    desk.shape();
    due_in(alloc, desk, object, desk.terms(object), span, before)
}

// The same of an object with these terms; a stock pays nothing.
fn due_in(
    alloc: Global,
    desk: &Desk,
    object: ObjId,
    terms: Option<&Terms>,
    span: &Span<'_>,
    before: &[Result<Amount, Cause>],
) -> Result<Result<Amount, Cause>, AllocError>
    requires { IsRanged (option_copied terms) }
    ensures { IfOk result (λ due. due ≡ due_in desk.now.market object (span_in span.now) before.now (option_copied terms.entry)) }
{
    match terms {
        Some(Terms::Composite(parts)) => Ok(weighted(object, parts.items(), before)),
        Some(Terms::Flows(flows, Some(engine))) => {
            flows_due(alloc, desk, object, flows, *engine, span)
        }
        Some(Terms::Flows(_, None)) => Ok(Ok(Amount(0))),
        None
        | Some(
            Terms::Quote(_)
            | Terms::Derived { .. }
            | Terms::Handle { .. }
            | Terms::Curve(_)
            | Terms::Implied { .. }
            | Terms::Index(..)
            | Terms::Engine { .. }
            | Terms::Stock { .. },
        ) => Ok(Ok(Amount(0))),
    }
}

// What flows pay.
fn flows_due(
    alloc: Global,
    desk: &Desk,
    object: ObjId,
    terms: &FlowTerms,
    engine: ObjId,
    span: &Span<'_>,
) -> Result<Result<Amount, Cause>, AllocError>
    requires { AreFlowsInRange terms.now }
    ensures { IfOk result (λ due. due ≡ flows_due desk.now.market object terms.now engine (span_in span.now)) }
{
    if expired(terms, desk.today()) {
        return Ok(Ok(Amount(0)));
    }
    let Some(curve) = curve_by(span.today, engine) else {
        return Ok(Err(Cause::Unpriced(object)));
    };
    let until = settled(span.day, curve_by(span.later, engine));
    due_named(
        alloc,
        desk,
        object,
        terms,
        curve.reference(),
        until,
        span.today,
    )
}

// What flows pay, by what their index gives.
fn due_named(
    alloc: Global,
    desk: &Desk,
    object: ObjId,
    terms: &FlowTerms,
    after: Day,
    until: Day,
    curves: &[GivenCurve],
) -> Result<Result<Amount, Cause>, AllocError>
    requires { AreFlowsInRange terms.now }
    ensures { IfOk result (λ due. due ≡ due_named desk.now.market object terms.now after until terms.now.index curves.now) }
{
    match terms.index {
        None => due_over(alloc, object, terms, desk.today(), after, until, None, None),
        Some(name) => match index_at(desk, name) {
            None => Ok(Err(Cause::Unpriced(object))),
            Some(index) => {
                let curve = curve_by(curves, name);
                due_on(
                    alloc,
                    object,
                    terms,
                    desk.today(),
                    after,
                    until,
                    &index,
                    curve,
                )
            }
        },
    }
}

// What flows on an index pay.
fn due_on(
    alloc: Global,
    object: ObjId,
    terms: &FlowTerms,
    today: Day,
    after: Day,
    until: Day,
    index: &IndexUse<'_>,
    curve: Option<&CurveValue>,
) -> Result<Result<Amount, Cause>, AllocError>
    requires { AreFlowsInRange terms.now }
    ensures { IfOk result (λ due. due ≡ due_on object terms.now today after until (index_reading (Some index.now)) (option_copied curve.entry)) }
{
    if needs_forecast(terms, index.fixings, today) && curve.is_none() {
        return Ok(Err(Cause::Unpriced(object)));
    }
    due_over(
        alloc,
        object,
        terms,
        today,
        after,
        until,
        Some(index),
        curve,
    )
}

// An index as a price sees it.
fn index_at(desk: &Desk, object: ObjId) -> Option<IndexUse<'_>>
    ensures { index_reading result ≡ index_at desk.now.market (Some object) }
{
    index_in(object, desk.terms(object))
}

fn index_in<'a>(object: ObjId, terms: Option<&'a Terms>) -> Option<IndexUse<'a>>
    ensures { index_reading result ≡ index_in object (option_copied terms.entry) }
{
    match terms {
        Some(Terms::Index(terms, fixings)) => Some(IndexUse {
            object,
            terms,
            fixings,
        }),
        None
        | Some(
            Terms::Quote(_)
            | Terms::Derived { .. }
            | Terms::Handle { .. }
            | Terms::Curve(_)
            | Terms::Implied { .. }
            | Terms::Engine { .. }
            | Terms::Stock { .. }
            | Terms::Composite(_)
            | Terms::Flows(..),
        ) => None,
    }
}

// What flows pay that a price counts today and on the later day no longer.
fn due_over(
    alloc: Global,
    object: ObjId,
    terms: &FlowTerms,
    today: Day,
    after: Day,
    until: Day,
    index: Option<&IndexUse<'_>>,
    curve: Option<&CurveValue>,
) -> Result<Result<Amount, Cause>, AllocError>
    requires range { AreFlowsInRange terms.now }
    requires index { IsSome terms.now.index → IsSome index }
    requires curve { needs_curve (views_of (option_copied index)) terms.now.flows today ≡ true → IsSome curve }
    ensures { IfOk result (λ due. due ≡ due_over object terms.now today after until (views_of (option_copied index.entry)) (option_copied curve.entry)) }
{
    match flows(alloc, terms, today, after, index, curve, object) {
        Ok(list) => Ok(paid_until(object, list.items(), until)),
        Err(FlowFault::Refused(cause)) => Ok(Err(cause)),
        Err(FlowFault::NoMemory) => Err(AllocError),
    }
}
